use super::*;

#[test]
fn a_table_finds_its_names_and_no_others(rt: HostRuntime) {
    let table = Table::of(rows![b"and" => 7, b"andb" => 2, b"bv" => 0, b"bvx" => 65535]);
    let rows: [(&[u8], Option<u16>); 9] = [
        (b"and", Some(7)),
        (b"andb", Some(2)),
        (b"bv", Some(0)),
        (b"bvx", Some(65535)),
        // Before the first name, between two names and after the last one.
        (b"", None),
        (b"an", None),
        (b"andbv", None),
        (b"bvxx", None),
        (b"\xff", None),
    ];
    for (name, code) in rows {
        assert_eq!(rt; table.find(name), code);
    }
}

#[test]
fn reserved_words_have_their_numbers(rt: HostRuntime) {
    let rows: [(&[u8], Option<u16>); 6] = [
        (b"!", Some(1)),
        (b"check-sat-assuming", Some(11)),
        (b"get-unsat-assumptions", Some(31)),
        (b"set-option", Some(43)),
        (b"Assert", None),
        (b"true", None),
    ];
    let words = reserved();
    for (word, number) in rows {
        assert_eq!(rt; words.find(word), number);
    }
}

#[test]
fn a_code_is_printed_with_its_number(rt: HostRuntime) {
    assert!(rt; Code::UnclosedList.text() == b"SX-3".as_slice());
    assert!(rt; Code::ChargeTooLarge.text() == b"EX-9".as_slice());
    assert_ne!(rt; Code::UnclosedList, Code::ListsTooDeep);
}
