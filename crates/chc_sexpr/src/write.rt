//! The one spelling of a tree.

ghost use Rattle.std.specs.Prelude.{◌≡◌, ◌++◌, codes, map, OnOk, OnErr};
ghost use Rattle.std.specs.List.{concat};
ghost use Rattle.std.specs.Fmt.{signed_decimal};
ghost use Rattle.chc_sexpr.specs.Spelling.{in_string, string_of};
ghost use Rattle.chc_sexpr.specs.Writing.{joined, tree_text, AddsFront, AreReadAgain};

use crate::symbol::write_symbol;
use crate::tree::Tree;
use chc_sorts::NoMemory;
use chc_source::ByteText;
use itoa::Buffer;

/// Writes a number in decimal.
fn write_number(number: i128, out: &mut ByteText) -> Result<(), NoMemory>
    ensures value { OnOk result (out.new ≡ out.old ++ signed_decimal number) }
    ensures same { OnErr result (out.new ≡ out.old) }
{
    let mut buffer = Buffer::new();
    out.extend(buffer.format(number).as_bytes())
}

/// Writes a byte of a string: a quote twice.
fn write_string_byte(b: u8, out: &mut ByteText) -> Result<(), NoMemory>
    ensures value { OnOk result (out.new ≡ out.old ++ in_string b) }
    ensures same { OnErr result (out.new ≡ out.old) }
{
    if b == b'"' {
        out.extend(b"\"\"")
    } else {
        out.push(b)
    }
}

/// Writes the bytes of a string.
fn write_string_bytes(bytes: &[u8], out: &mut ByteText) -> Result<(), NoMemory>
    ensures value { OnOk result (out.new ≡ out.old ++ concat (map in_string bytes.now)) }
    ensures front { OnErr result (AddsFront (concat (map in_string bytes.now)) out.old out.new) }
{
    for b in bytes {
        write_string_byte(*b, out)?;
    }
    Ok(())
}

/// Writes a string.
fn write_string(bytes: &[u8], out: &mut ByteText) -> Result<(), NoMemory>
    ensures value { OnOk result (out.new ≡ out.old ++ string_of bytes.now) }
    ensures front { OnErr result (AddsFront (string_of bytes.now) out.old out.new) }
{
    out.push(b'"')?;
    write_string_bytes(bytes, out)?;
    out.push(b'"')?;
    Ok(())
}

/// Writes trees, with a space between each two.
#[cycle(trees)]
fn write_trees(trees: &[Tree], out: &mut ByteText) -> Result<(), NoMemory>
    ensures value { OnOk result (out.new ≡ out.old ++ joined (map tree_text trees.now)) }
    ensures front { OnErr result (AddsFront (joined (map tree_text trees.now)) out.old out.new) }
{
    if let [first, rest @ ..] = trees {
        write_tree(first, out)?;
        for tree in rest {
            out.push(b' ')?;
            write_tree(tree, out)?;
        }
    }
    Ok(())
}

/// Writes a group of trees.
#[cycle(trees)]
fn write_group(trees: &[Tree], out: &mut ByteText) -> Result<(), NoMemory>
    ensures value { OnOk result (out.new ≡ out.old ++ codes "(" ++ joined (map tree_text trees.now) ++ codes ")") }
    ensures front { OnErr result (AddsFront (codes "(" ++ joined (map tree_text trees.now) ++ codes ")") out.old out.new) }
{
    out.push(b'(')?;
    write_trees(trees, out)?;
    out.push(b')')?;
    Ok(())
}

/// Writes a tree at the end of a text: its tokens as they stand, with one space between the trees of a group, bars
/// round a symbol that needs them, and each quote of a string twice. It goes as deep as groups stand within one
/// another, which are at most 1,000 in the trees that `read_trees` gives. The only error is that memory was refused;
/// then a front of the tree's text stands at the end.
#[cycle(trees)]
pub fn write_tree(tree: &Tree, out: &mut ByteText) -> Result<(), NoMemory>
    ensures value { OnOk result (out.new ≡ out.old ++ tree_text tree.now) }
    ensures front { OnErr result (AddsFront (tree_text tree.now) out.old out.new) }
{
    match tree {
        Tree::Symbol(_, name) => write_symbol(out, name.bytes())?,
        Tree::Word(_, text) | Tree::Keyword(_, text) | Tree::Other(_, text) => {
            out.extend(text.bytes())?
        }
        Tree::Numeral(_, number) => write_number(*number, out)?,
        Tree::Text(_, bytes) => write_string(bytes.bytes(), out)?,
        Tree::Group(_, trees) => write_group(trees.as_slice(), out)?,
    }
    Ok(())
}

/// The law that the text of a tree that some bytes spell is read as that tree again, but for the places in it.
pub fn written_is_read_again()
    ensures { AreReadAgain }
{}
