//! Names as symbols.

ghost use Rattle.std.specs.Prelude.{◌≡◌, ◌++◌, OnOk, OnErr};
ghost use Rattle.std.specs.Str.{bytes_eq};
ghost use Rattle.chc_sexpr.specs.Symbols.{is_one_of, assertion_commands, declaration_commands, definition_commands, question_commands, setting_commands, is_command_name, is_bare, symbol_text};
ghost use Rattle.chc_sexpr.specs.Writing.{AddsFront};

use crate::token::{is_reserved, is_simple_symbol};
use chc_sorts::NoMemory;
use chc_source::ByteText;

/// Whether the name is the word.
fn is_word(name: &[u8], word: &[u8]) -> bool
    ensures { result ≡ bytes_eq name.now word.now }
{
    name == word
}

/// Whether the name is that of a command on assertions, checks and scopes.
fn is_assertion_command(name: &[u8]) -> bool
    ensures { result ≡ is_one_of assertion_commands name.now }
{
    is_word(name, b"assert")
        || is_word(name, b"check-sat")
        || is_word(name, b"check-sat-assuming")
        || is_word(name, b"echo")
        || is_word(name, b"exit")
        || is_word(name, b"pop")
        || is_word(name, b"push")
        || is_word(name, b"reset")
        || is_word(name, b"reset-assertions")
}

/// Whether the name is that of a declaring command.
fn is_declaration_command(name: &[u8]) -> bool
    ensures { result ≡ is_one_of declaration_commands name.now }
{
    is_word(name, b"declare-const")
        || is_word(name, b"declare-datatype")
        || is_word(name, b"declare-datatypes")
        || is_word(name, b"declare-fun")
        || is_word(name, b"declare-sort")
}

/// Whether the name is that of a defining command.
fn is_definition_command(name: &[u8]) -> bool
    ensures { result ≡ is_one_of definition_commands name.now }
{
    is_word(name, b"define-fun")
        || is_word(name, b"define-fun-rec")
        || is_word(name, b"define-funs-rec")
        || is_word(name, b"define-sort")
}

/// Whether the name is that of a command that asks for something.
fn is_question_command(name: &[u8]) -> bool
    ensures { result ≡ is_one_of question_commands name.now }
{
    is_word(name, b"get-assertions")
        || is_word(name, b"get-assignment")
        || is_word(name, b"get-info")
        || is_word(name, b"get-model")
        || is_word(name, b"get-option")
        || is_word(name, b"get-proof")
        || is_word(name, b"get-unsat-assumptions")
        || is_word(name, b"get-unsat-core")
        || is_word(name, b"get-value")
}

/// Whether the name is that of a command that sets something.
fn is_setting_command(name: &[u8]) -> bool
    ensures { result ≡ is_one_of setting_commands name.now }
{
    is_word(name, b"set-info") || is_word(name, b"set-logic") || is_word(name, b"set-option")
}

/// Whether the name is that of a command.
fn is_command_name(name: &[u8]) -> bool
    ensures { result ≡ is_command_name name.now }
{
    is_assertion_command(name)
        || is_declaration_command(name)
        || is_definition_command(name)
        || is_question_command(name)
        || is_setting_command(name)
}

/// Whether a name is written without bars: it is a simple symbol, and neither a word of the language nor the name of a command.
pub fn is_bare(name: &[u8]) -> bool
    ensures { result ≡ is_bare name.now }
{
    is_simple_symbol(name) && !is_reserved(name) && !is_command_name(name)
}

/// Writes a name as a symbol: as it is, or between bars where it isn't a simple symbol, or is a word of the language or
/// the name of a command. The only error is that memory was refused; then a front of the symbol stands at the end.
#[tactic(auto, unfolding(crate::specs::Symbols::symbol_text))]
pub fn write_symbol(out: &mut ByteText, name: &[u8]) -> Result<(), NoMemory>
    ensures value { OnOk result (out.new ≡ out.old ++ symbol_text name.now) }
    ensures front { OnErr result (AddsFront (symbol_text name.now) out.old out.new) }
{
    if is_bare(name) {
        out.extend(name)?;
    } else {
        out.push(b'|')?;
        out.extend(name)?;
        out.push(b'|')?;
    }
    Ok(())
}
