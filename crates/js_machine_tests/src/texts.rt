//! Texts: what their clauses say exactly is called once, with ample memory.

use cdp_text::decimal::{read_decimal, read_decimal_units};
use cdp_text::line_table::LineTable;
use cdp_text::lines::cut_line;
use cdp_text::parts::{behind, halves};
use cdp_text::position::{Place, Pos, offset_at, pos_at};
use cdp_text::units::{Units, text_of, units_of};
use std::test::Fail;

#[test]
fn parts_of_texts(rt: HostRuntime) {
    assert_eq!(rt; read_decimal("9007199254740992"), Some(0x20_0000_0000_0000));
    assert_eq!(rt; read_decimal_units(b"01"), None);
    assert_eq!(rt;
        cut_line(b"a\r\nb\n"),
        Some((b"a\r".as_slice(), b"b\n".as_slice()))
    );
    assert_eq!(rt; behind("tell 1", "tell "), Some("1"));
    assert_eq!(rt; halves("1 a b", ' '), Some(("1", "a b")));
}

#[test]
fn units_and_positions(rt: HostRuntime) -> Result<(), Fail> {
    let units = units_of(rt.alloc(), "a\u{1F600}\r\nb")?;
    assert_eq!(rt;
        units.as_slice(),
        [0x61, 0xD83D, 0xDE00, 0x0D, 0x0A, 0x62].as_slice()
    );
    assert_eq!(rt;
        text_of(rt.alloc(), units.as_slice())?.as_str(),
        "a\u{1F600}\r\nb"
    );
    let lone = Units::from_slice(rt.alloc(), &[0xDE00, 0x61])?;
    assert_eq!(rt; text_of(rt.alloc(), lone.as_slice())?.as_str(), "\u{FFFD}a");
    assert!(rt; lone.clone()? == lone && lone != units && lone.len() == 2 && !lone.is_empty());
    let pos = Pos { line: 1, col: 0 };
    let place = Place { script: 1, pos };
    let table = LineTable::new(rt.alloc(), units.as_slice())?;
    assert_eq!(rt; pos_at(units.as_slice(), 5), pos);
    assert_eq!(rt; table.pos_at(units.as_slice(), 5), pos);
    assert_eq!(rt; offset_at(units.as_slice(), pos), Some(5));
    assert_eq!(rt; table.offset_at(units.as_slice(), pos), Some(5));
    assert!(rt; Pos { line: 0, col: 9 } < pos && place < Place { script: 2, pos });
    assert_eq!(rt; Units::from_vec(lone.into_vec()).len(), 2);
    Ok(())
}
