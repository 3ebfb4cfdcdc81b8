//! What the definitions come to on small numbers.

ghost use Rattle.std.specs.Prelude.{◌≡◌, ◌/◌, ◌%◌, ◌^◌, ◌++◌, codes};
ghost use Rattle.tl_generate.specs.Generated.{drawn, generated, line_feed};

/// The first draw from 0.
pub fn first_draw()
    ensures state { drawn 0 ≡ 1442695040888963407 }
    ensures value { drawn 0 / 2 ^ 33 ≡ 167951807 }
    ensures kind { drawn 0 / 2 ^ 33 % 8 ≡ 7 }
{}

/// The script of one job that is drawn from 0.
pub fn script_of_one()
    ensures { generated 1 0 ≡ codes "tachyon 1 workers 4 capacity 65536 hot 3" ++ line_feed
        ++ codes "0 put /f0 \"0\"" ++ line_feed
        ++ codes "1 job 7 64 in /f0 out /f1 run (job (cat (in 0) \"x\"))" ++ line_feed
        ++ codes "1 sum 0 /f1" ++ line_feed
        ++ codes "0 sum 0 /f1" ++ line_feed }
{}
