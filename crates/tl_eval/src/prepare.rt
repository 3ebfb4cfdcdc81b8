ghost use Rattle.std.specs.Prelude.{◌≡◌, IfOk, map};
ghost use Rattle.tl_eval.specs.Materials.{given_of};
ghost use Rattle.tl_eval.specs.Nodes.{gives};
ghost use Rattle.tl_eval.specs.Prepared.{Means, MeansForm, unary_form, binary_form};
ghost use Rattle.tl_lang.specs.Meaning.{evaluate};
ghost use Rattle.tl_lang.specs.declared.expr.Expr.TheOpen as form;

use crate::fault::Fault;
use crate::material::{Material, value_of};
use crate::node::Node;
use crate::op::{Binary, OnListText, OnNumbers, OnTexts, Unary};
use crate::text::Text;
use crate::value::Value;
use std::sync::Arc;
use tl_lang::{Boxed, Expr, Items, Name};
use tl_types::{Bytes, NoMemory, Shared};

impl Material<'_> {
    /// The node of an expression.
    #[cycle(prepare)]
    pub fn prepare(&self, expr: &Expr) -> Result<Arc<Node>, NoMemory>
        ensures { IfOk result (Means (given_of self.now) expr.now) }
    {
        match expr {
            Expr::Text(text) => self.text(text),
            Expr::Number(number) => self.node(Node::Known(Value::Number(*number))),
            Expr::Var(name) => self.var(name),
            Expr::Input(place) => self.input(*place),
            Expr::Key(key) => self.key(key),
            Expr::Cat(a, b) => {
                let b = self.prepare(b.get())?;
                self.binary(Binary::Texts(OnTexts::Cat), a, b)
            }
            Expr::Len(a) => self.unary(Unary::Len, a),
            Expr::Sub(a, i, j) => {
                let i = self.prepare(i.get())?;
                let j = self.prepare(j.get())?;
                self.sub(a, i, j)
            }
            Expr::Eq(a, b) => {
                let b = self.prepare(b.get())?;
                self.binary(Binary::Texts(OnTexts::Eq), a, b)
            }
            Expr::Has(a, b) => {
                let b = self.prepare(b.get())?;
                self.binary(Binary::Texts(OnTexts::Has), a, b)
            }
            Expr::Num(a) => self.unary(Unary::Num, a),
            Expr::Str(a) => self.unary(Unary::Str, a),
            Expr::Add(a, b) => {
                let b = self.prepare(b.get())?;
                self.binary(Binary::Numbers(OnNumbers::Add), a, b)
            }
            Expr::Minus(a, b) => {
                let b = self.prepare(b.get())?;
                self.binary(Binary::Numbers(OnNumbers::Minus), a, b)
            }
            Expr::Mul(a, b) => {
                let b = self.prepare(b.get())?;
                self.binary(Binary::Numbers(OnNumbers::Mul), a, b)
            }
            Expr::Div(a, b) => {
                let b = self.prepare(b.get())?;
                self.binary(Binary::Numbers(OnNumbers::Div), a, b)
            }
            Expr::Mod(a, b) => {
                let b = self.prepare(b.get())?;
                self.binary(Binary::Numbers(OnNumbers::Mod), a, b)
            }
            Expr::Lt(a, b) => {
                let b = self.prepare(b.get())?;
                self.binary(Binary::Numbers(OnNumbers::Lt), a, b)
            }
            Expr::Same(a, b) => {
                let b = self.prepare(b.get())?;
                self.binary(Binary::Numbers(OnNumbers::Same), a, b)
            }
            Expr::If(c, a, b) => {
                let a = self.prepare(a.get())?;
                let b = self.prepare(b.get())?;
                self.choice(c, a, b)
            }
            Expr::Let(x, a, b) => {
                let b = self.prepare(b.get())?;
                self.bind(x, a, b)
            }
            Expr::Lines(a) => self.unary(Unary::Lines, a),
            Expr::Split(a, b) => {
                let b = self.prepare(b.get())?;
                self.binary(Binary::Texts(OnTexts::Split), a, b)
            }
            Expr::Join(a, b) => {
                let b = self.prepare(b.get())?;
                self.binary(Binary::ListText(OnListText::Join), a, b)
            }
            Expr::List(parts) => self.list(parts),
            Expr::Append(a, b) => {
                let b = self.prepare(b.get())?;
                self.binary(Binary::ListText(OnListText::Append), a, b)
            }
            Expr::At(a, b) => {
                let b = self.prepare(b.get())?;
                self.binary(Binary::At, a, b)
            }
            Expr::Count(a) => self.unary(Unary::Count, a),
            Expr::Sort(a) => self.unary(Unary::Sort, a),
            Expr::Each(x, m, a) => {
                let a = self.prepare(a.get())?;
                self.each(x, m, a)
            }
            Expr::Keep(x, m, a) => {
                let a = self.prepare(a.get())?;
                self.keep(x, m, a)
            }
            Expr::Fold(s, x, m, i, a) => {
                let i = self.prepare(i.get())?;
                let a = self.prepare(a.get())?;
                self.fold(s, x, m, i, a)
            }
        }
    }

    #[cycle(prepare)]
    fn unary(&self, op: Unary, part: &Boxed<Expr>) -> Result<Arc<Node>, NoMemory>
        ensures { IfOk result (MeansForm (given_of self.now) (unary_form op (evaluate (given_of self.now) part.now))) }
    {
        let part = self.prepare(part.get())?;
        self.node(Node::Unary(op, part))
    }

    #[cycle(prepare)]
    fn binary(
        &self,
        op: Binary,
        left: &Boxed<Expr>,
        right: Arc<Node>,
    ) -> Result<Arc<Node>, NoMemory>
        ensures { IfOk result (MeansForm (given_of self.now) (binary_form op (evaluate (given_of self.now) left.now) (gives right.value))) }
    {
        let left = self.prepare(left.get())?;
        self.node(Node::Binary(op, left, right))
    }

    #[cycle(prepare)]
    fn sub(
        &self,
        whole: &Boxed<Expr>,
        from: Arc<Node>,
        to: Arc<Node>,
    ) -> Result<Arc<Node>, NoMemory>
        ensures { IfOk result (MeansForm (given_of self.now) (form.Sub (evaluate (given_of self.now) whole.now) (gives from.value) (gives to.value))) }
    {
        let whole = self.prepare(whole.get())?;
        self.node(Node::Sub(whole, from, to))
    }

    #[cycle(prepare)]
    fn choice(
        &self,
        condition: &Boxed<Expr>,
        one: Arc<Node>,
        other: Arc<Node>,
    ) -> Result<Arc<Node>, NoMemory>
        ensures { IfOk result (MeansForm (given_of self.now) (form.If (evaluate (given_of self.now) condition.now) (gives one.value) (gives other.value))) }
    {
        let condition = self.prepare(condition.get())?;
        self.node(Node::If(condition, one, other))
    }

    #[cycle(prepare)]
    fn bind(&self, name: &Name, part: &Boxed<Expr>, body: Arc<Node>) -> Result<Arc<Node>, NoMemory>
        ensures { IfOk result (MeansForm (given_of self.now) (form.Let name.now (evaluate (given_of self.now) part.now) (gives body.value))) }
    {
        let part = self.prepare(part.get())?;
        let name = self.shared(name)?;
        self.node(Node::Let(name, part, body))
    }

    #[cycle(prepare)]
    fn each(&self, name: &Name, items: &Boxed<Expr>, body: Arc<Node>) -> Result<Arc<Node>, NoMemory>
        ensures { IfOk result (MeansForm (given_of self.now) (form.Each name.now (evaluate (given_of self.now) items.now) (gives body.value))) }
    {
        let items = self.prepare(items.get())?;
        let name = self.shared(name)?;
        self.node(Node::Each(name, items, body))
    }

    #[cycle(prepare)]
    fn keep(&self, name: &Name, items: &Boxed<Expr>, body: Arc<Node>) -> Result<Arc<Node>, NoMemory>
        ensures { IfOk result (MeansForm (given_of self.now) (form.Keep name.now (evaluate (given_of self.now) items.now) (gives body.value))) }
    {
        let items = self.prepare(items.get())?;
        let name = self.shared(name)?;
        self.node(Node::Keep(name, items, body))
    }

    #[cycle(prepare)]
    fn fold(
        &self,
        state: &Name,
        name: &Name,
        items: &Boxed<Expr>,
        start: Arc<Node>,
        body: Arc<Node>,
    ) -> Result<Arc<Node>, NoMemory>
        ensures { IfOk result (MeansForm (given_of self.now) (form.Fold state.now name.now (evaluate (given_of self.now) items.now) (gives start.value) (gives body.value))) }
    {
        let items = self.prepare(items.get())?;
        let state = self.shared(state)?;
        let name = self.shared(name)?;
        self.node(Node::Fold(state, name, items, start, body))
    }

    #[cycle(prepare)]
    fn list(&self, parts: &Items<Expr>) -> Result<Arc<Node>, NoMemory>
        ensures { IfOk result (MeansForm (given_of self.now) (form.List (map (evaluate (given_of self.now)) parts.now))) }
    {
        let parts = self.prepare_all(parts.as_slice())?;
        self.node(Node::List(Arc::new(self.alloc, parts)?))
    }

    /// The nodes of these expressions.
    #[cycle(prepare)]
    pub fn prepare_all(&self, exprs: &[Expr]) -> Result<Items<Arc<Node>>, NoMemory>
        ensures { IfOk result (λ nodes. map (λ node. gives node.value) nodes ≡ map (evaluate (given_of self.now)) exprs.now) }
    {
        let mut nodes = Items::new(self.alloc);
        for expr in exprs {
            nodes.push(self.prepare(expr)?)?;
        }
        Ok(nodes)
    }

    fn text(&self, text: &Bytes) -> Result<Arc<Node>, NoMemory>
        ensures { IfOk result (MeansForm (given_of self.now) (form.Text text.now)) }
    {
        let text = Text::new(self.alloc, text.clone()?)?;
        self.node(Node::Known(Value::Text(text)))
    }

    fn var(&self, name: &Name) -> Result<Arc<Node>, NoMemory>
        ensures { IfOk result (MeansForm (given_of self.now) (form.Var name.now)) }
    {
        self.node(Node::Var(self.shared(name)?))
    }

    fn input(&self, place: u64) -> Result<Arc<Node>, NoMemory>
        ensures { IfOk result (MeansForm (given_of self.now) (form.Input place)) }
    {
        match self.inputs.get(place as usize) {
            Some(text) => self.node(Node::Known(Value::Text(text.try_clone()?))),
            None => self.node(Node::Unknown(Fault::NoMeaning)),
        }
    }

    fn key(&self, key: &Bytes) -> Result<Arc<Node>, NoMemory>
        ensures { IfOk result (MeansForm (given_of self.now) (form.Key key.now)) }
    {
        match value_of(self.entries, key.as_slice()) {
            Some(text) => self.node(Node::Known(Value::Text(text.try_clone()?))),
            None => self.node(Node::Unknown(Fault::NoKey)),
        }
    }

    fn shared(&self, name: &Name) -> Result<Shared<Name>, NoMemory>
        ensures { IfOk result (λ shared. shared ≡ name.now) }
    {
        Shared::new(self.alloc, name.clone()?)
    }

    fn node(&self, node: Node) -> Result<Arc<Node>, NoMemory>
        ensures { IfOk result (λ shared. shared.value ≡ node) }
    {
        Ok(Arc::new(self.alloc, node)?)
    }
}
