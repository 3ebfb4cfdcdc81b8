//! Worked evaluations: each fact is computed from the definitions.
ghost use Rattle.std.specs.Prelude.{◌≡◌, ◌∷◌, ◌++◌, ℕ, List, [], codes, length, pos, negsuc, None, Some};
ghost use Rattle.tl_types.specs.declared.outcome.Outcome.TheVariants.{Value, Fault};
ghost use Rattle.tl_lang.specs.Examples.{shout, line_bytes, quotients, trial, a_text, plus, quoted_texts};
ghost use Rattle.tl_lang.specs.Fuel.{done, fault};
ghost use Rattle.tl_lang.specs.Kinds.{refusal};
ghost use Rattle.tl_lang.specs.Mean.{mean, entered};
ghost use Rattle.tl_lang.specs.Value.{text, number, list};

use crate::expr::Expr;

/// `(job (cat (in 0) "!"))`
#[tactic(auto, unfolding(crate::specs::Computing::computing))]
pub fn shout()
    ensures kinds { refusal shout 1 1 ≡ None }
    ensures value { mean shout [] (Value (codes "hi") ∷ []) 3 ≡ Value (codes "hi!") ∷ [] }
    ensures short { mean shout [] (Value (codes "hi") ∷ []) 2 ≡ Fault 1 ∷ [] }
    ensures entered { entered shout [] (Value (codes "hi") ∷ []) 3 ≡ 3 }
    ensures input_fault { mean shout [] (Fault 4 ∷ []) 3 ≡ Fault 8 ∷ [] }
    ensures none_entered { entered shout [] (Fault 4 ∷ []) 3 ≡ 0 }
{}

/// `(job (str (fold a x (lines (in 0)) 0 (add a (len x)))))` on two lines
#[tactic(auto, unfolding(crate::specs::Computing::computing))]
pub fn line_bytes()
    ensures kinds { refusal line_bytes 1 1 ≡ None }
    ensures value { mean line_bytes [] (Value (97 ∷ 98 ∷ 10 ∷ 99 ∷ []) ∷ []) 13 ≡ Value (codes "3") ∷ [] }
    ensures short { mean line_bytes [] (Value (97 ∷ 98 ∷ 10 ∷ 99 ∷ []) ∷ []) 12 ≡ Fault 1 ∷ [] }
    ensures entered { entered line_bytes [] (Value (97 ∷ 98 ∷ 10 ∷ 99 ∷ []) ∷ []) 16777216 ≡ 13 }
{}

/// `(job (str (div -7 2)) (str (mod -7 2)))`
#[tactic(auto, unfolding(crate::specs::Computing::computing))]
pub fn quotients()
    ensures kinds { refusal quotients 0 2 ≡ None }
    ensures value { mean quotients [] [] 4 ≡ Value (codes "-3") ∷ Value (codes "-1") ∷ [] }
    ensures short { mean quotients [] [] 3 ≡ Fault 1 ∷ Fault 1 ∷ [] }
    ensures entered { entered quotients [] [] 4 ≡ 8 }
{}

/// The first refusal of the kind rules, by its number.
#[tactic(auto, unfolding(crate::specs::Computing::computing))]
pub fn refusals()
    ensures accepted { refusal (record { outputs = (Expr.Input 0 ∷ []) }) 1 1 ≡ None }
    ensures outputs { refusal (record { outputs = (Expr.Input 0 ∷ []) }) 1 2 ≡ Some 1 }
    ensures unbound { refusal (record { outputs = (Expr.Var (codes "x") ∷ []) }) 0 1 ≡ Some 2 }
    ensures out_of_sight { refusal (record { outputs = (Expr.Cat (Expr.Let (codes "x") (a_text []) (Expr.Var (codes "x"))) (Expr.Var (codes "x")) ∷ []) }) 0 1 ≡ Some 2 }
    ensures wrong_part { refusal (record { outputs = (Expr.Cat (plus 1) (a_text []) ∷ []) }) 0 1 ≡ Some 3 }
    ensures parts_first { refusal (record { outputs = (Expr.Cat (plus 1) (Expr.Var (codes "x")) ∷ []) }) 0 1 ≡ Some 2 }
    ensures body_first { refusal (record { outputs = (Expr.Join (Expr.Each (codes "x") (plus 1) (Expr.Var (codes "y"))) (a_text []) ∷ []) }) 0 1 ≡ Some 2 }
    ensures branches { refusal (record { outputs = (Expr.Str (Expr.If (plus 1) (plus 1) (a_text [])) ∷ []) }) 0 1 ≡ Some 3 }
    ensures no_input { refusal (record { outputs = (Expr.Input 1 ∷ []) }) 1 1 ≡ Some 4 }
    ensures no_text { refusal (record { outputs = (plus 1 ∷ []) }) 0 1 ≡ Some 3 }
    ensures left_first { refusal (record { outputs = (plus 1 ∷ Expr.Var (codes "x") ∷ []) }) 0 2 ≡ Some 3 }
{}

/// Texts, numbers, names, inputs and keys.
#[tactic(auto, unfolding(crate::specs::Computing::computing))]
pub fn simple_forms()
    ensures quoted { trial (a_text (codes "a")) 1 ≡ done (text (codes "a")) 0 }
    ensures signed { trial (Expr.Number (negsuc 6)) 1 ≡ done (number (negsuc 6)) 0 }
    ensures name { trial (Expr.Let (codes "x") (a_text (codes "a")) (Expr.Var (codes "x"))) 3 ≡ done (text (codes "a")) 0 }
    ensures inner_name { trial (Expr.Let (codes "x") (a_text (codes "a")) (Expr.Let (codes "x") (plus 1) (Expr.Var (codes "x")))) 5 ≡ done (number (pos 1)) 0 }
    ensures input { trial (Expr.Input 0) 1 ≡ done (text (codes "hi")) 0 }
    ensures key { trial (Expr.Key (codes "k")) 1 ≡ done (text (codes "v")) 0 }
    ensures no_key { trial (Expr.Key (codes "z")) 1 ≡ fault 7 0 }
    ensures no_fuel { trial (a_text (codes "a")) 0 ≡ fault 1 0 }
{}

/// The forms on texts.
#[tactic(auto, unfolding(crate::specs::Computing::computing))]
pub fn text_forms()
    ensures cat { trial (Expr.Cat (a_text (codes "ab")) (a_text (codes "c"))) 3 ≡ done (text (codes "abc")) 0 }
    ensures len { trial (Expr.Len (a_text (codes "abc"))) 2 ≡ done (number (pos 3)) 0 }
    ensures sub { trial (Expr.Sub (a_text (codes "abcd")) (plus 1) (plus 3)) 4 ≡ done (text (codes "bc")) 0 }
    ensures sub_whole { trial (Expr.Sub (a_text (codes "ab")) (plus 0) (plus 2)) 4 ≡ done (text (codes "ab")) 0 }
    ensures sub_past { trial (Expr.Sub (a_text (codes "ab")) (plus 1) (plus 3)) 4 ≡ fault 6 0 }
    ensures sub_turned { trial (Expr.Sub (a_text (codes "ab")) (plus 2) (plus 1)) 4 ≡ fault 6 0 }
    ensures sub_negative { trial (Expr.Sub (a_text (codes "ab")) (Expr.Number (negsuc 0)) (plus 1)) 4 ≡ fault 6 0 }
    ensures eq { trial (Expr.Eq (a_text (codes "ab")) (a_text (codes "ab"))) 3 ≡ done (number (pos 1)) 0 }
    ensures not_eq { trial (Expr.Eq (a_text (codes "ab")) (a_text (codes "a"))) 3 ≡ done (number (pos 0)) 0 }
    ensures has { trial (Expr.Has (a_text (codes "abc")) (a_text (codes "bc"))) 3 ≡ done (number (pos 1)) 0 }
    ensures has_not { trial (Expr.Has (a_text (codes "abc")) (a_text (codes "cb"))) 3 ≡ done (number (pos 0)) 0 }
    ensures has_empty { trial (Expr.Has (a_text []) (a_text [])) 3 ≡ done (number (pos 1)) 0 }
    ensures num { trial (Expr.Num (a_text (codes "-7"))) 2 ≡ done (number (negsuc 6)) 0 }
    ensures num_least { trial (Expr.Num (a_text (codes "-9223372036854775808"))) 2 ≡ done (number (negsuc 9223372036854775807)) 0 }
    ensures num_padded { trial (Expr.Num (a_text (codes "007"))) 2 ≡ fault 5 0 }
    ensures num_plus { trial (Expr.Num (a_text (codes "+7"))) 2 ≡ fault 5 0 }
    ensures num_minus_zero { trial (Expr.Num (a_text (codes "-0"))) 2 ≡ fault 5 0 }
    ensures num_empty { trial (Expr.Num (a_text [])) 2 ≡ fault 5 0 }
    ensures num_past { trial (Expr.Num (a_text (codes "9223372036854775808"))) 2 ≡ fault 5 0 }
    ensures str { trial (Expr.Str (Expr.Number (negsuc 119))) 2 ≡ done (text (codes "-120")) 0 }
{}

/// The forms on numbers.
#[tactic(auto, unfolding(crate::specs::Computing::computing))]
pub fn number_forms()
    ensures add { trial (Expr.Add (plus 2) (Expr.Number (negsuc 2))) 3 ≡ done (number (negsuc 0)) 0 }
    ensures add_past { trial (Expr.Add (plus 9223372036854775807) (plus 1)) 3 ≡ fault 3 0 }
    ensures minus { trial (Expr.Minus (plus 2) (plus 3)) 3 ≡ done (number (negsuc 0)) 0 }
    ensures minus_past { trial (Expr.Minus (Expr.Number (negsuc 9223372036854775807)) (plus 1)) 3 ≡ fault 3 0 }
    ensures mul { trial (Expr.Mul (Expr.Number (negsuc 3)) (plus 3)) 3 ≡ done (number (negsuc 11)) 0 }
    ensures mul_past { trial (Expr.Mul (plus 4294967296) (plus 2147483648)) 3 ≡ fault 3 0 }
    ensures div { trial (Expr.Div (Expr.Number (negsuc 6)) (plus 2)) 3 ≡ done (number (negsuc 2)) 0 }
    ensures div_zero { trial (Expr.Div (plus 7) (plus 0)) 3 ≡ fault 4 0 }
    ensures div_past { trial (Expr.Div (Expr.Number (negsuc 9223372036854775807)) (Expr.Number (negsuc 0))) 3 ≡ fault 3 0 }
    ensures remainder { trial (Expr.Mod (Expr.Number (negsuc 6)) (plus 2)) 3 ≡ done (number (negsuc 0)) 0 }
    ensures remainder_sign { trial (Expr.Mod (plus 7) (Expr.Number (negsuc 1))) 3 ≡ done (number (pos 1)) 0 }
    ensures remainder_zero { trial (Expr.Mod (plus 7) (plus 0)) 3 ≡ fault 4 0 }
    ensures remainder_past { trial (Expr.Mod (Expr.Number (negsuc 9223372036854775807)) (Expr.Number (negsuc 0))) 3 ≡ fault 3 0 }
    ensures lt { trial (Expr.Lt (Expr.Number (negsuc 0)) (plus 0)) 3 ≡ done (number (pos 1)) 0 }
    ensures not_lt { trial (Expr.Lt (plus 0) (plus 0)) 3 ≡ done (number (pos 0)) 0 }
    ensures same { trial (Expr.Same (plus 5) (plus 5)) 3 ≡ done (number (pos 1)) 0 }
    ensures if_other { trial (Expr.If (plus 0) (plus 1) (plus 2)) 3 ≡ done (number (pos 2)) 0 }
    ensures if_one { trial (Expr.If (Expr.Number (negsuc 0)) (plus 1) (Expr.Div (plus 1) (plus 0))) 3 ≡ done (number (pos 1)) 0 }
{}

/// The forms on lists.
#[tactic(auto, unfolding(crate::specs::Computing::computing))]
pub fn list_forms()
    ensures lines { trial (Expr.Lines (a_text (97 ∷ 10 ∷ 10 ∷ 98 ∷ 10 ∷ []))) 2 ≡ done (list (codes "a" ∷ [] ∷ codes "b" ∷ [])) 0 }
    ensures lines_open { trial (Expr.Lines (a_text (97 ∷ 10 ∷ 98 ∷ []))) 2 ≡ done (list (codes "a" ∷ codes "b" ∷ [])) 0 }
    ensures lines_empty { trial (Expr.Lines (a_text [])) 2 ≡ done (list ([])) 0 }
    ensures split { trial (Expr.Split (a_text (codes "a,b,")) (a_text (codes ","))) 3 ≡ done (list (codes "a" ∷ codes "b" ∷ [] ∷ [])) 0 }
    ensures split_empty { trial (Expr.Split (a_text []) (a_text (codes ","))) 3 ≡ done (list ([] ∷ [])) 0 }
    ensures split_wide { trial (Expr.Split (a_text (codes "a")) (a_text (codes ",,"))) 3 ≡ fault 6 0 }
    ensures split_none { trial (Expr.Split (a_text (codes "a")) (a_text [])) 3 ≡ fault 6 0 }
    ensures join { trial (Expr.Join (Expr.List (quoted_texts (codes "a" ∷ codes "b" ∷ [] ∷ []))) (a_text (codes "--"))) 6 ≡ done (text (codes "a--b--")) 0 }
    ensures list { trial (Expr.List (quoted_texts (codes "a" ∷ codes "b" ∷ []))) 3 ≡ done (list (codes "a" ∷ codes "b" ∷ [])) 0 }
    ensures list_empty { trial (Expr.List (quoted_texts ([]))) 1 ≡ done (list ([])) 0 }
    ensures append { trial (Expr.Append (Expr.List (quoted_texts (codes "a" ∷ []))) (a_text (codes "b"))) 4 ≡ done (list (codes "a" ∷ codes "b" ∷ [])) 0 }
    ensures at { trial (Expr.At (Expr.List (quoted_texts (codes "a" ∷ codes "b" ∷ []))) (plus 1)) 5 ≡ done (text (codes "b")) 0 }
    ensures at_past { trial (Expr.At (Expr.List (quoted_texts (codes "a" ∷ codes "b" ∷ []))) (plus 2)) 5 ≡ fault 6 0 }
    ensures at_negative { trial (Expr.At (Expr.List (quoted_texts (codes "a" ∷ codes "b" ∷ []))) (Expr.Number (negsuc 0))) 5 ≡ fault 6 0 }
    ensures count { trial (Expr.Count (Expr.List (quoted_texts (codes "a" ∷ codes "b" ∷ [])))) 4 ≡ done (number (pos 2)) 0 }
    ensures sort { trial (Expr.Sort (Expr.List (quoted_texts (codes "b" ∷ codes "ab" ∷ [] ∷ codes "a" ∷ codes "b" ∷ [])))) 7 ≡ done (list ([] ∷ codes "a" ∷ codes "ab" ∷ codes "b" ∷ codes "b" ∷ [])) 0 }
    ensures each { trial (Expr.Each (codes "x") (Expr.List (quoted_texts (codes "a" ∷ codes "b" ∷ []))) (Expr.Cat (Expr.Var (codes "x")) (a_text (codes "!")))) 10 ≡ done (list (codes "a!" ∷ codes "b!" ∷ [])) 0 }
    ensures keep { trial (Expr.Keep (codes "x") (Expr.List (quoted_texts (codes "a" ∷ codes "b" ∷ codes "a" ∷ []))) (Expr.Eq (Expr.Var (codes "x")) (a_text (codes "a")))) 14 ≡ done (list (codes "a" ∷ codes "a" ∷ [])) 0 }
    ensures fold { trial (Expr.Fold (codes "s") (codes "x") (Expr.List (quoted_texts (codes "a" ∷ codes "b" ∷ []))) (a_text (codes "-")) (Expr.Cat (Expr.Var (codes "s")) (Expr.Var (codes "x")))) 11 ≡ done (text (codes "-ab")) 0 }
    ensures fold_one_name { trial (Expr.Fold (codes "x") (codes "x") (Expr.List (quoted_texts (codes "a" ∷ codes "b" ∷ []))) (a_text (codes "-")) (Expr.Var (codes "x"))) 7 ≡ done (text (codes "b")) 0 }
    ensures fold_short { trial (Expr.Fold (codes "s") (codes "x") (Expr.List (quoted_texts (codes "a" ∷ codes "b" ∷ []))) (a_text (codes "-")) (Expr.Cat (Expr.Var (codes "s")) (Expr.Var (codes "x")))) 10 ≡ fault 1 0 }
{}

/// The limit of 1,048,576 bytes, of a text and of a list, which is tested after all its parts.
pub fn limits()
    ensures cat_whole { (s : List ℕ) → length s ≡ 1048575 →
        trial (Expr.Cat (a_text s) (a_text (codes "x"))) 3 ≡ done (text (s ++ codes "x")) 0 }
    ensures cat_past { (s : List ℕ) → length s ≡ 1048576 →
        trial (Expr.Cat (a_text s) (a_text (codes "x"))) 3 ≡ fault 2 0 }
    ensures list_past { (s : List ℕ) → length s ≡ 1048576 →
        trial (Expr.List (a_text s ∷ a_text (codes "x") ∷ [])) 3 ≡ fault 2 0 }
    ensures list_after_parts { (s : List ℕ) → length s ≡ 1048576 →
        trial (Expr.List (a_text s ∷ a_text (codes "x") ∷ [])) 2 ≡ fault 1 0 }
{}
