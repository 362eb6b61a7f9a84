//! Operators as they are written.

ghost use Rattle.std.specs.Prelude.{◌≡◌, length, option_copied};
ghost use Rattle.chc_sorts.specs.Operators.{op_named, written_name, operator_rows, NamesDiffer, ReadAgain};

use crate::op::Op;

#[cfg(test)]
mod tests;

/// Hands the table of the operators that are read to another macro: `operator_rows!([take] given ..)` calls
/// `take!([given ..] rows)`. A row is a name, its variant of `ReadOp`, how many arguments it takes (`one`, `some` for one
/// or more, `several` for two or more, `two`, `three`), of which sorts they are (`truths`, `equal`, `choice`, `numbers`,
/// `compared`, `read`, `written`), and how the term is built on them (`(applied Not)`, `(left Add)`, `(chained Le)`, ..).
/// A `match` over the rows is written once, and a new row is an arm of each:
///
/// ```text
/// macro_rules! has_name {
///     ([$name:expr] $($text:literal $read:ident $count:ident $sorts:ident $form:tt),*) => {
///         matches!($name, $($text)|*)
///     };
/// }
///
/// fn is_operator(name: &[u8]) -> bool {
///     chc_sorts::operator_rows!([has_name] name)
/// }
/// ```
#[macro_export]
macro_rules! operator_rows {
    ([$($take:tt)*] $($given:tt)*) => {
        $($take)*! {
            [$($given)*]
            b"not" Not one truths (applied Not),
            b"=>" Implies several truths (implication),
            b"and" And some truths (sole And),
            b"or" Or some truths (sole Or),
            b"xor" Xor several truths (differing),
            b"=" Eq several equal (chained Eq),
            b"distinct" Distinct several equal (distinct),
            b"ite" Ite three choice (applied Ite),
            b"-" Sub some numbers (difference),
            b"+" Add some numbers (left Add),
            b"*" Mul some numbers (left Mul),
            b"div" Div several numbers (left Div),
            b"mod" Mod two numbers (applied Mod),
            b"abs" Abs one numbers (absolute),
            b"<=" Le several compared (chained Le),
            b"<" Lt several compared (chained Lt),
            b">=" Ge several compared (turned Le),
            b">" Gt several compared (turned Lt),
            b"select" Select two read (applied Select),
            b"store" Store three written (applied Store)
        }
    };
}

/// Hands the table of the operators of terms that are written by a name to another macro, as `operator_rows` does.
/// A row is a variant of `Op`, its name, and what it demands of its arguments: a truth value (`negated`), two or more of
/// them (`truths`), two of one sort (`equal`), a truth value and two of one sort (`choice`), two numbers (`numbers`, or
/// `compared` where it gives a truth value), an array and an index (`read`), or these and an element (`written`):
///
/// ```text
/// macro_rules! is_named {
///     ([$op:expr] $($kind:ident $text:literal $demand:ident),*) => {
///         matches!($op, $(Op::$kind)|*)
///     };
/// }
///
/// fn has_name(op: &Op) -> bool {
///     chc_sorts::written_operators!([is_named] op)
/// }
/// ```
#[macro_export]
macro_rules! written_operators {
    ([$($take:tt)*] $($given:tt)*) => {
        $($take)*! {
            [$($given)*]
            Not b"not" negated,
            And b"and" truths,
            Or b"or" truths,
            Eq b"=" equal,
            Ite b"ite" choice,
            Add b"+" numbers,
            Sub b"-" numbers,
            Mul b"*" numbers,
            Div b"div" numbers,
            Mod b"mod" numbers,
            Le b"<=" compared,
            Lt b"<" compared,
            Select b"select" read,
            Store b"store" written
        }
    };
}

macro_rules! rows {
    ([] $($text:literal $read:ident $count:ident $sorts:ident $form:tt),*) => {
        [$(OpRow { name: $text, op: ReadOp::$read }),*]
    };
}

macro_rules! read_as {
    ([$name:expr] $($text:literal $read:ident $count:ident $sorts:ident $form:tt),*) => {
        match $name {
            $($text => Some(ReadOp::$read),)*
            _ => None,
        }
    };
}

macro_rules! written_as {
    ([$op:expr] $($kind:ident $text:literal $demand:ident),*) => {
        match $op {
            $(Op::$kind => Some($text),)*
            Op::Const(_) | Op::Make(_, _) | Op::Get(_, _, _) | Op::Is(_, _) => None,
        }
    };
}

/// What a script may write as an operator. `=>`, `xor`, `distinct`, `abs`, `>=` and `>` are read as other operators of
/// terms.
#[derive(Clone, Copy, Debug, PartialEq, Eq)]
pub enum ReadOp {
    Not,
    Implies,
    And,
    Or,
    Xor,
    Eq,
    Distinct,
    Ite,
    Sub,
    Add,
    Mul,
    Div,
    Mod,
    Abs,
    Le,
    Lt,
    Ge,
    Gt,
    Select,
    Store,
}

/// A row of the table: a name, and what it is read as.
#[derive(Clone, Copy, Debug)]
pub struct OpRow {
    pub name: &'static [u8],
    pub op: ReadOp,
}

/// A table of names that are read as operators.
#[derive(Clone, Copy)]
pub struct OpTable<const N: usize> {
    pub rows: [OpRow; N],
}

/// The names that are read as operators, one for each variant of `ReadOp`, in the order of the variants.
pub const OPS: OpTable<20> = OpTable {
    rows: operator_rows!([rows]),
};

/// The operator that a name is read as, or `None` where it is no operator's.
pub fn op_by_name(name: &[u8]) -> Option<ReadOp>
    ensures { result ≡ op_named name.now }
{
    operator_rows!([read_as] name)
}

/// The name that an operator is written with. `None` for constant arrays, constructors, selectors and testers, which
/// have other forms.
pub fn name_of(op: &Op) -> Option<&'static [u8]>
    ensures { option_copied result ≡ written_name op.now }
{
    written_operators!([written_as] op)
}

/// No two rows of the table share a name, there are twenty of them, and the name that an operator of terms is written
/// with is read as the operator of the same name.
pub fn names_of_operators_differ()
    ensures apart { NamesDiffer operator_rows }
    ensures twenty { length operator_rows ≡ 20 }
    ensures again { ReadAgain }
{}
