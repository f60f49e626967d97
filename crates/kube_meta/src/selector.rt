//! Label selectors (`kube::core::labels`).

ghost use Rattle.std.specs.Prelude.{◌≡◌, [], ◌∷◌, ◌++◌, OnOk, OnErr, option_copied};
ghost use Rattle.std.specs.Fmt.{WritesOnOk};
ghost use Rattle.kube_meta.specs.Selectors.{is_one_of, is_value, holds, selects, with_commas, selector_text};
ghost use Rattle.kube_meta.specs.Pairs.{text_at};

use crate::list::List;
use crate::memory::NoMemory;
use crate::text::Text;
use crate::text_map::TextMap;
use crate::text_set::TextSet;
use std::alloc::Global;
use std::fmt;
use std::marker::Model;

/// A condition on an object's labels (Kubernetes API concept "set-based requirement").
#[derive(Debug, Drop)]
pub enum Expression {
    /// The label is there with one of the values.
    In(Text, TextSet),
    /// The label is absent, or has none of the values.
    NotIn(Text, TextSet),
    /// The label is there with this value.
    Equal(Text, Text),
    /// The label is absent, or has another value.
    NotEqual(Text, Text),
    /// The label is there.
    Exists(Text),
    /// The label is absent.
    DoesNotExist(Text),
}

impl Expression {
    /// Whether it holds of these labels.
    pub fn matches(&self, labels: &TextMap) -> bool
        ensures { result ≡ holds self.now labels.now }
    {
        match self {
            Expression::In(key, values) => is_among(values, labels.get(key.as_str())),
            Expression::NotIn(key, values) => !is_among(values, labels.get(key.as_str())),
            Expression::Equal(key, value) => is(value, labels.get(key.as_str())),
            Expression::NotEqual(key, value) => !is(value, labels.get(key.as_str())),
            Expression::Exists(key) => labels.get(key.as_str()).is_some(),
            Expression::DoesNotExist(key) => labels.get(key.as_str()).is_none(),
        }
    }
}

/// Whether a label is there with one of the values.
fn is_among(values: &TextSet, label: Option<&Text>) -> bool
    ensures { result ≡ is_one_of values.now (option_copied label.entry) }
{
    match label {
        Some(text) => values.contains(text.as_str()),
        None => false,
    }
}

/// Whether a label is there with this value.
fn is(value: &Text, label: Option<&Text>) -> bool
    ensures { result ≡ is_value value.now (option_copied label.entry) }
{
    match label {
        Some(text) => text == value,
        None => false,
    }
}

impl fmt::Display for Expression {
    ghost use Rattle.std.specs.Prelude.{Some};
    ghost use Rattle.kube_meta.specs.Selectors.{expression_text};

    ghost output = { λ e. Some (expression_text e) };

    fn fmt<W: fmt::Write>(&self, f: &mut fmt::Formatter<W>) -> fmt::Result {
        match self {
            Expression::In(key, values) => write_values(f, key.as_str(), " in (", values),
            Expression::NotIn(key, values) => write_values(f, key.as_str(), " notin (", values),
            Expression::Equal(key, value) => write!(f, "{key}={value}"),
            Expression::NotEqual(key, value) => write!(f, "{key}!={value}"),
            Expression::Exists(key) => write!(f, "{key}"),
            Expression::DoesNotExist(key) => write!(f, "!{key}"),
        }
    }
}

/// A key, a word and the values.
fn write_values<W: fmt::Write>(
    f: &mut fmt::Formatter<W>,
    key: &str,
    word: &str,
    values: &TextSet,
) -> fmt::Result
    ensures { WritesOnOk W.write_str_gives f.old result (key.now ++ (word.now ++ (with_commas values.now ++ 41 ∷ []))) f.new }
{
    f.write_str(key)?;
    f.write_str(word)?;
    write_set(f, values)?;
    f.write_str(")")
}

/// The texts of a set with commas between them.
fn write_set<W: fmt::Write>(f: &mut fmt::Formatter<W>, values: &TextSet) -> fmt::Result
    ensures { WritesOnOk W.write_str_gives f.old result (with_commas values.now) f.new }
{
    let mut separator = "";
    for value in values.as_set().iter() {
        f.write_str(separator)?;
        f.write_str(value.as_str())?;
        separator = ",";
    }
    Ok(())
}

/// A label selector: a list of conditions which are all to hold.
///
/// Contracts see it as the list of its expressions. The empty selector selects everything.
#[derive(Debug, Drop)]
pub struct Selector {
    expressions: List<Expression>,
}

impl Model for Selector {
    ghost use Rattle.std.specs.Prelude.{List};
    ghost use Rattle.kube_meta.specs.declared.selector.Expression.{Expression as expression_data};

    ghost Value = { List expression_data };

    ghost view = { λ s. s.expressions };
}

impl Selector {
    /// The selector without an expression.
    pub fn new(alloc: Global) -> Selector
        ensures { result ≡ [] }
    {
        Selector {
            expressions: List::new(alloc),
        }
    }

    /// Adds an expression at the end.
    ///
    /// Errors: `NoMemory`, and the selector stays as it was; the expression is dropped.
    pub fn push(&mut self, expression: Expression) -> Result<(), NoMemory>
        ensures ok { OnOk result (self.new ≡ self.old ++ expression ∷ []) }
        ensures err { OnErr result (self.new ≡ self.old) }
    {
        self.expressions.push(expression)
    }

    /// Whether each expression holds of these labels.
    pub fn matches(&self, labels: &TextMap) -> bool
        ensures { result ≡ selects self.now labels.now }
    {
        all_match(self.expressions.as_slice(), labels)
    }
}

fn all_match(expressions: &[Expression], labels: &TextMap) -> bool
    ensures { result ≡ selects expressions.now labels.now }
{
    for expression in expressions {
        if !expression.matches(labels) {
            return false;
        }
    }
    true
}

impl fmt::Display for Selector {
    ghost use Rattle.std.specs.Prelude.{Some};
    ghost use Rattle.kube_meta.specs.Selectors.{selector_text};

    ghost output = { λ s. Some (selector_text s) };

    fn fmt<W: fmt::Write>(&self, f: &mut fmt::Formatter<W>) -> fmt::Result {
        write_expressions(f, self.expressions.as_slice())
    }
}

/// Expressions with commas between them.
fn write_expressions<W: fmt::Write>(
    f: &mut fmt::Formatter<W>,
    expressions: &[Expression],
) -> fmt::Result
    ensures { WritesOnOk W.write_str_gives f.old result (selector_text expressions.now) f.new }
{
    let mut separator = "";
    for expression in expressions {
        f.write_str(separator)?;
        write!(f, "{expression}")?;
        separator = ",";
    }
    Ok(())
}
