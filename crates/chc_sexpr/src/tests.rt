//! Trees of small texts, the faults of texts that spell none, and the texts of trees.

use crate::fault::{Fault, TextErr};
use crate::symbol::write_symbol;
use crate::text::read_trees;
use crate::tree::{Tree, Trees};
use crate::write::write_tree;
use chc_sorts::NoMemory;
use chc_source::ByteText;
use std::alloc::Global;

/// A letter for the kind of a tree.
fn letter(tree: &Tree) -> u8 {
    match tree {
        Tree::Symbol(_, _) => b's',
        Tree::Word(_, _) => b'w',
        Tree::Keyword(_, _) => b'k',
        Tree::Numeral(_, _) => b'n',
        Tree::Text(_, _) => b't',
        Tree::Other(_, _) => b'o',
        Tree::Group(_, _) => b'g',
    }
}

/// Whether the trees are of these kinds, in this order.
fn are_kinds(trees: &Trees, kinds: &[u8]) -> bool {
    if trees.len() != kinds.len() {
        return false;
    }
    for (tree, kind) in trees.as_slice().iter().zip(kinds) {
        if letter(tree) != *kind {
            return false;
        }
    }
    true
}

/// Whether the trees are one token at place 1, of the kind and of the bytes.
fn is_token(trees: &Trees, kind: u8, bytes: &[u8]) -> bool {
    match trees.as_slice() {
        [
            tree @ (Tree::Symbol(1, text)
            | Tree::Word(1, text)
            | Tree::Keyword(1, text)
            | Tree::Text(1, text)
            | Tree::Other(1, text)),
        ] => letter(tree) == kind && text.bytes() == bytes,
        _ => false,
    }
}

/// As many `(` as `deep`, and then as many `)` as `closed`.
fn nested(alloc: Global, deep: usize, closed: usize) -> Result<ByteText, NoMemory> {
    let mut text = ByteText::new(alloc);
    for _ in 0..deep {
        text.push(b'(')?;
    }
    for _ in 0..closed {
        text.push(b')')?;
    }
    Ok(text)
}

/// Whether a text has this fault at this place, about no name.
fn has_fault(alloc: Global, text: &[u8], fault: Fault, place: u64) -> bool {
    if text.len() >= 1000000 {
        return false;
    }
    match read_trees(alloc, text) {
        Err(TextErr::At(found)) => {
            found.fault == fault && found.place == place && found.name.len() == 0
        }
        _ => false,
    }
}

#[test]
fn each_kind_of_token_is_read(rt: HostRuntime) {
    let tokens = [
        (b" a+0".as_slice(), b's', b"a+0".as_slice()),
        (b" |a b;\n\"(|", b's', b"a b;\n\"("),
        (b" ||", b's', b""),
        (b" |let|", b's', b"let"),
        (b"\tlet", b'w', b"let"),
        (b"\n:1a", b'k', b":1a"),
        (b"\r\"a\"\"b;|\xff\"", b't', b"a\"b;|\xff"),
        (b" \"\"", b't', b""),
        (b" 1.50", b'o', b"1.50"),
        (
            b" 1234567890123456789012345678901234567890123456789012345678901234567890.0",
            b'o',
            b"1234567890123456789012345678901234567890123456789012345678901234567890.0",
        ),
        (b" #xaF0", b'o', b"#xaF0"),
        (b" #b01", b'o', b"#b01"),
    ];
    for (text, kind, bytes) in tokens {
        match read_trees(rt.alloc(), text) {
            Ok(trees) => assert!(rt; is_token(&trees, kind, bytes), "at {}", text.len()),
            Err(_) => assert!(rt; false, "at {}", text.len()),
        }
    }
}

#[test]
fn trees_stand_side_by_side(rt: HostRuntime) {
    let texts = [
        (b"".as_slice(), b"".as_slice()),
        (b" ; nothing (", b""),
        (b"a;b\nc;d\re", b"ss"),
        (b"|a|b", b"ss"),
        (b"a|b|", b"ss"),
        (b"#b12", b"on"),
        (b"a#b1", b"so"),
        (b"\"a\" \"b\":c:d", b"ttkk"),
        (b"1()0.5(2(;)\n))let", b"ngogw"),
    ];
    for (text, kinds) in texts {
        match read_trees(rt.alloc(), text) {
            Ok(trees) => assert!(rt; are_kinds(&trees, kinds), "at {}", text.len()),
            Err(_) => assert!(rt; false, "at {}", text.len()),
        }
    }
}

/// Whether the trees are a group, which holds a symbol, a numeral and an empty group, and a word behind it, each at its
/// place.
fn is_example(trees: &Trees) -> bool {
    match trees.as_slice() {
        [Tree::Group(1, inner), Tree::Word(15, word)] => {
            word.bytes() == b"let".as_slice()
                && match inner.as_slice() {
                    [
                        Tree::Symbol(2, symbol),
                        Tree::Numeral(5, 120),
                        Tree::Group(9, empty),
                    ] => symbol.bytes() == b"p!".as_slice() && empty.len() == 0,
                    _ => false,
                }
        }
        _ => false,
    }
}

#[test]
fn trees_stand_at_their_places(rt: HostRuntime) {
    match read_trees(rt.alloc(), b" (p! 120 ( \r\t))let\n") {
        Ok(trees) => assert!(rt; is_example(&trees)),
        Err(_) => assert!(rt; false),
    }
}

#[test]
fn the_largest_numeral_is_read(rt: HostRuntime) {
    match read_trees(rt.alloc(), b"170141183460469231731687303715884105727") {
        Ok(trees) => match trees.as_slice() {
            [Tree::Numeral(0, number)] => assert!(rt; *number == i128::MAX),
            _ => assert!(rt; false),
        },
        Err(_) => assert!(rt; false),
    }
}

#[test]
fn faults_stand_at_their_places(rt: HostRuntime) {
    let faults = [
        (b"(\xc3\xa4".as_slice(), Fault::BadByte, 1),
        (b"a ,", Fault::BadByte, 2),
        (b"a:", Fault::BadByte, 1),
        (b"(1.", Fault::BadByte, 2),
        (b"1.5.", Fault::BadByte, 3),
        (b"12a", Fault::BadByte, 2),
        (b"#c", Fault::BadByte, 0),
        (b"#xg", Fault::BadByte, 0),
        (b"#x1g", Fault::BadByte, 3),
        (b"#b1a", Fault::BadByte, 3),
        (b"#b12a", Fault::BadByte, 4),
        (b" |a\\", Fault::BadByte, 3),
        (b" |a;b", Fault::OpenQuoted, 1),
        (b" \"a\"\"", Fault::OpenString, 1),
        (b"(a) (b (c d)", Fault::OpenParen, 4),
        (b"(a (b) ; )", Fault::OpenParen, 0),
        (b"(a))(", Fault::StrayParen, 3),
        (b" 01", Fault::LeadingZero, 1),
        (b"00.5", Fault::LeadingZero, 0),
        (
            b" 170141183460469231731687303715884105728",
            Fault::NumeralTooLarge,
            1,
        ),
        (
            b"170141183460469231731687303715884105728a",
            Fault::NumeralTooLarge,
            0,
        ),
    ];
    for (text, fault, place) in faults {
        assert!(rt;
            has_fault(rt.alloc(), text, fault, place),
            "at {}",
            text.len()
        );
    }
}

#[test]
fn a_thousand_groups_may_stand_within_one_another(rt: HostRuntime) {
    match nested(rt.alloc(), 1000, 1000) {
        Ok(text) => match text.len() < 1000000 {
            true => assert!(rt; read_trees(rt.alloc(), text.bytes()).is_ok()),
            false => assert!(rt; false),
        },
        Err(_) => assert!(rt; false),
    }
    for (deep, fault, place) in [(1001, Fault::TooDeep, 1000), (1000, Fault::OpenParen, 999)] {
        match nested(rt.alloc(), deep, 0) {
            Ok(text) => assert!(rt;
                has_fault(rt.alloc(), text.bytes(), fault, place),
                "at {deep}"
            ),
            Err(_) => assert!(rt; false),
        }
    }
}

#[test]
fn faults_have_the_names_of_their_variants(rt: HostRuntime) {
    assert!(rt; Fault::BadByte.name() == b"BadByte".as_slice());
    assert!(rt; Fault::NotYet.name() == b"NotYet".as_slice());
}

/// The name as a symbol.
fn symbol(alloc: Global, name: &[u8]) -> Result<ByteText, NoMemory> {
    let mut out = ByteText::new(alloc);
    write_symbol(&mut out, name)?;
    Ok(out)
}

#[test]
fn names_between_bars_and_bare(rt: HostRuntime) {
    let names = [
        (b"inv".as_slice(), b"inv".as_slice()),
        (b"x!0", b"x!0"),
        (b"", b"||"),
        (b"0a", b"|0a|"),
        (b"a b", b"|a b|"),
        (b"forall", b"|forall|"),
        (b"exit", b"|exit|"),
        (b"get-unsat-core", b"|get-unsat-core|"),
    ];
    for (name, wanted) in names {
        match symbol(rt.alloc(), name) {
            Ok(text) => assert!(rt; text.bytes() == wanted, "at {}", name.len()),
            Err(_) => assert!(rt; false, "at {}", name.len()),
        }
    }
}

/// The trees of a short text, written one behind the other.
fn written(alloc: Global, text: &[u8]) -> Result<ByteText, TextErr> {
    let mut out = ByteText::new(alloc);
    if text.len() < 1000000 {
        let trees = read_trees(alloc, text)?;
        for tree in trees.as_slice() {
            write_tree(tree, &mut out)?;
        }
    }
    Ok(out)
}

#[test]
fn trees_are_written_in_one_way(rt: HostRuntime) {
    let texts = [
        (b" |abc| ".as_slice(), b"abc".as_slice()),
        (b"let", b"let"),
        (b"|let|", b"|let|"),
        (b"assert", b"|assert|"),
        (b"||", b"||"),
        (b"\t:key", b":key"),
        (b"0 ;", b"0"),
        (
            b"170141183460469231731687303715884105727",
            b"170141183460469231731687303715884105727",
        ),
        (b"\"a\"\"b\"", b"\"a\"\"b\""),
        (b"0.50", b"0.50"),
        (b"#xaF0", b"#xaF0"),
        (b"( )", b"()"),
        (
            b"(;\n|a| ( )\n(\"b\"(12)#b01)|c d| )",
            b"(a () (\"b\" (12) #b01) |c d|)",
        ),
    ];
    for (text, wanted) in texts {
        match written(rt.alloc(), text) {
            Ok(out) => assert!(rt; out.bytes() == wanted, "at {}", text.len()),
            Err(_) => assert!(rt; false, "at {}", text.len()),
        }
    }
}
