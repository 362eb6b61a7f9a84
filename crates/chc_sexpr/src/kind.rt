//! Kinds of bytes, of which tokens and comments are made.

ghost use Rattle.std.specs.Prelude.{◌≡◌, ◌≤◌, length};
ghost use Rattle.std.specs.List.{prefix_len};
ghost use Rattle.chc_sexpr.specs.Tokens.{is_symbol_byte};
ghost use Rattle.chc_sexpr.specs.Scanning.{is_of};

/// A kind of bytes.
#[derive(Clone, Copy)]
pub enum Kind {
    /// A letter, a digit or a sign: what may stand in a symbol without bars.
    Symbol,
    /// A decimal digit.
    Digit,
    /// A hexadecimal digit, in capitals or not.
    Hexadecimal,
    /// A binary digit.
    Binary,
    /// What may not follow a binary token.
    BinaryTail,
    /// What may stand between the bars of a quoted symbol.
    Quotable,
    /// What goes on with a comment.
    Commented,
}

/// Whether a byte may stand in a symbol without bars.
pub fn is_symbol_byte(b: u8) -> bool
    ensures { result ≡ is_symbol_byte b }
{
    b.is_ascii_alphanumeric()
        || matches!(
            b,
            b'~' | b'!'
                | b'@'
                | b'$'
                | b'%'
                | b'^'
                | b'&'
                | b'*'
                | b'_'
                | b'-'
                | b'+'
                | b'='
                | b'<'
                | b'>'
                | b'.'
                | b'?'
                | b'/'
        )
}

impl Kind {
    /// Whether a byte is of this kind.
    pub fn has(self, b: u8) -> bool
        ensures { result ≡ is_of self b }
    {
        match self {
            Kind::Symbol => is_symbol_byte(b),
            Kind::Digit => b.is_ascii_digit(),
            Kind::Hexadecimal => b.is_ascii_hexdigit(),
            Kind::Binary => b == b'0' || b == b'1',
            Kind::BinaryTail => {
                is_symbol_byte(b) && (b == b'0' || b == b'1' || !b.is_ascii_digit())
            }
            Kind::Quotable => b != b'|' && b != b'\\',
            Kind::Commented => b != b'\n',
        }
    }
}

/// How many bytes of a kind stand in front of any other.
pub fn run_length(kind: Kind, bytes: &[u8]) -> usize
    ensures run { result ≡ prefix_len (is_of kind) bytes.now }
    ensures within { result ≤ length bytes.now }
{
    let mut count = 0;
    while count < bytes.len() && kind.has(bytes[count]) {
        count += 1;
    }
    count
}
