//! What can be wrong with a text.

use chc_sorts::NoMemory;
use chc_source::ByteText;

/// What is wrong at a place of a text.
#[derive(Clone, Copy, Debug, PartialEq, Eq)]
pub enum Fault {
    /// A byte that begins no token, or that may not follow the token before it.
    BadByte,
    /// A string that is not closed.
    OpenString,
    /// A quoted symbol that is not closed.
    OpenQuoted,
    /// A `(` that is not closed.
    OpenParen,
    /// A `)` without a `(`.
    StrayParen,
    /// A numeral that begins with a needless 0.
    LeadingZero,
    /// A numeral past 2^127 - 1.
    NumeralTooLarge,
    /// Parentheses or a term that are nested too deep.
    TooDeep,
    /// A name that nothing declares.
    UnknownName,
    /// A name of a sort that nothing declares.
    UnknownSort,
    /// An array sort whose indices are not `Int`.
    ArrayIndex,
    /// An array sort that is nested too deep.
    SortTooDeep,
    /// A term, or a part of one, of another sort than is wanted there.
    WrongSort,
    /// An operator or a declared name with another number of arguments than it takes.
    WrongCount,
    /// A name that is taken already.
    NameTaken,
    /// A form of the language that is not read here.
    NotSupported,
    /// A term of too many nodes.
    TooLarge,
    /// A tree of another shape than is wanted there.
    BadCommand,
    /// A script that sets no logic first.
    NoLogic,
    /// A script that sets another logic than `HORN`.
    OtherLogic,
    /// A command that is not known.
    UnknownCommand,
    /// A declared function whose values are not of sort `Bool`.
    NotPredicate,
    /// A datatype that has no value.
    NotWellFounded,
    /// An assertion that is no Horn clause.
    NotHorn,
    /// A quantifier inside an assertion, past its prefix.
    QuantInside,
    /// A command after `check-sat` that may not stand there.
    AfterCheck,
    /// A script without `check-sat`.
    NoCheck,
    /// More of something than is allowed.
    TooMany,
    /// A text that is no answer of a solver.
    NotAnswer,
    /// A tree of another form than is wanted there.
    BadForm,
    /// Something that is given twice.
    Twice,
    /// A definition with other parameters than its predicate has.
    WrongParams,
    /// A predicate without a definition.
    Missing,
    /// An entry of the world that is given twice.
    WorldTwice,
    /// A refutation without steps.
    Empty,
    /// A step that names a clause that is not there.
    NoClause,
    /// A step whose values are not those that its clause takes.
    WrongValues,
    /// A step with another number of premises than its clause has atoms.
    PremiseCount,
    /// A premise that is no earlier step.
    LatePremise,
    /// A premise that concludes another predicate than the atom has.
    OtherPremise,
    /// A form that this version does not read yet.
    NotYet,
}

impl Fault {
    ghost use Rattle.std.specs.Prelude.{◌≡◌};
    ghost use Rattle.chc_sexpr.specs.Faults.{fault_name};

    /// The variant's name, as text.
    pub fn name(&self) -> &'static [u8]
        ensures { result.now ≡ fault_name self.now }
    {
        match self {
            Fault::BadByte => b"BadByte",
            Fault::OpenString => b"OpenString",
            Fault::OpenQuoted => b"OpenQuoted",
            Fault::OpenParen => b"OpenParen",
            Fault::StrayParen => b"StrayParen",
            Fault::LeadingZero => b"LeadingZero",
            Fault::NumeralTooLarge => b"NumeralTooLarge",
            Fault::TooDeep => b"TooDeep",
            Fault::UnknownName => b"UnknownName",
            Fault::UnknownSort => b"UnknownSort",
            Fault::ArrayIndex => b"ArrayIndex",
            Fault::SortTooDeep => b"SortTooDeep",
            Fault::WrongSort => b"WrongSort",
            Fault::WrongCount => b"WrongCount",
            Fault::NameTaken => b"NameTaken",
            Fault::NotSupported => b"NotSupported",
            Fault::TooLarge => b"TooLarge",
            Fault::BadCommand => b"BadCommand",
            Fault::NoLogic => b"NoLogic",
            Fault::OtherLogic => b"OtherLogic",
            Fault::UnknownCommand => b"UnknownCommand",
            Fault::NotPredicate => b"NotPredicate",
            Fault::NotWellFounded => b"NotWellFounded",
            Fault::NotHorn => b"NotHorn",
            Fault::QuantInside => b"QuantInside",
            Fault::AfterCheck => b"AfterCheck",
            Fault::NoCheck => b"NoCheck",
            Fault::TooMany => b"TooMany",
            Fault::NotAnswer => b"NotAnswer",
            Fault::BadForm => b"BadForm",
            Fault::Twice => b"Twice",
            Fault::WrongParams => b"WrongParams",
            Fault::Missing => b"Missing",
            Fault::WorldTwice => b"WorldTwice",
            Fault::Empty => b"Empty",
            Fault::NoClause => b"NoClause",
            Fault::WrongValues => b"WrongValues",
            Fault::PremiseCount => b"PremiseCount",
            Fault::LatePremise => b"LatePremise",
            Fault::OtherPremise => b"OtherPremise",
            Fault::NotYet => b"NotYet",
        }
    }
}

/// A fault, with where it stands and what it is about.
#[derive(Debug, Drop)]
pub struct TextFault {
    /// Where it stands: an offset in bytes, counted from 0 at the text's start.
    pub place: u64,
    /// What is wrong there.
    pub fault: Fault,
    /// The name that it is about, or no bytes where there is none.
    pub name: ByteText,
}

/// Why a text was not read.
#[derive(Debug, Drop)]
pub enum TextErr {
    /// The text has a fault.
    At(TextFault),
    /// Memory was refused.
    NoMemory,
}

impl From<NoMemory> for TextErr {
    ghost use Rattle.std.specs.Prelude.{◌≡◌};
    ghost use Rattle.chc_sexpr.specs.declared.fault.TextErr.TheVariants.{NoMemory as refused};

    ghost from_gives = { λ _ made. made ≡ refused };

    fn from(_refused: NoMemory) -> TextErr {
        TextErr::NoMemory
    }
}

impl<T: Drop> From<(T, NoMemory)> for TextErr {
    ghost use Rattle.std.specs.Prelude.{◌≡◌};
    ghost use Rattle.chc_sexpr.specs.declared.fault.TextErr.TheVariants.{NoMemory as refused};

    ghost from_gives = { λ _ made. made ≡ refused };

    fn from(_refused: (T, NoMemory)) -> TextErr {
        TextErr::NoMemory
    }
}
