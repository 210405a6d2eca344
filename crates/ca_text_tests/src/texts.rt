//! Texts and names: each call once, with what it gives.

use ca_lex::{Names, Text};
use std::test::Fail;

#[test]
fn a_text_grows_and_is_compared(rt: HostRuntime) -> Result<(), Fail> {
    let alloc = rt.alloc();
    for (start, byte, more, want) in [
        ("", b'A', "", "A"),
        ("ND", b'2', "X1", "ND2X1"),
        ("NAND", b'2', "X1", "NAND2X1"),
        ("a", b' ', "b c", "a b c"),
    ] {
        let mut text = Text::from_bytes(alloc, start.as_bytes())?;
        assert_eq!(rt; text.is_empty(), start.is_empty(), "at {want}");
        text.push(byte)?;
        text.append(more.as_bytes())?;
        assert!(rt; text.is(want.as_bytes()) && !text.is_empty(), "at {want}");
        assert!(rt; !text.is(more.as_bytes()), "at {want}");
        assert_eq!(rt; text.len(), want.len(), "at {want}");
        assert!(rt; text == text.copy(alloc)?, "at {want}");
        assert!(rt; text != Text::new(alloc), "at {want}");
        assert_eq!(rt;
            Text::from_vec(want.as_bytes().to_vec(alloc)?).as_bytes(),
            want.as_bytes()
        );
    }
    Ok(())
}

static LISTS: [&[&str]; 2] = [&["ZN", "A1", "ZN"], &["", "NAND2X1"]];

#[test]
fn names_stand_in_order(rt: HostRuntime) -> Result<(), Fail> {
    let alloc = rt.alloc();
    for list in &LISTS {
        let mut names = Names::new(alloc);
        assert!(rt; names.is_empty());
        for name in *list {
            names.push(Text::from_bytes(alloc, name.as_bytes())?)?;
        }
        let copy = names.copy(alloc)?;
        assert_eq!(rt; names.len(), list.len());
        assert_eq!(rt; copy.len(), list.len());
        for place in 0..names.len() {
            assert!(rt; place < list.len() && place < copy.len());
            assert!(rt; names.get(place).is(list[place].as_bytes()), "{place}");
            assert!(rt;
                names.as_slice()[place].is(list[place].as_bytes()),
                "{place}"
            );
            assert!(rt; copy.get(place).is(list[place].as_bytes()), "{place}");
        }
    }
    Ok(())
}
