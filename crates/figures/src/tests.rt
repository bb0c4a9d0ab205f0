// The worked figures once more, by the compiled code.
use bench_suite::word::Word;
use message::varint::read_varint;
use opening::unseal::{OpenRefusal, unseal};
use ratchet::advance::advance;
use ratchet::copies::{Holding, SessionCopy};
use ratchet::holdings::join_holdings;
use ratchet::ids::Id;
use ratchet::suite::Suite;
use sending::sender::Sender;
use std::test::Fail;
use store::meaning::Store;
use store::sighting::Sighting;
use store::spot::Spot;
use tables::table::Table;

const ID: Id = Id {
    w0: 0,
    w1: 0,
    w2: 0,
    w3: 1,
};

fn zeros(index: u32) -> SessionCopy<Word> {
    let zero = Word { value: 0 };
    SessionCopy {
        index,
        r0: zero,
        r1: zero,
        r2: zero,
        r3: zero,
    }
}

// From an index to another, and the hashes of that.
const HASHES: [(u32, u32, u32); 6] = [
    (0, 300, 46),
    (255, 256, 2),
    (65_535, 65_536, 3),
    (0, 4_294_967_295, 1026),
    (0x105, 0x202, 4),
    (7, 7, 0),
];

#[test]
fn advances(rt: HostRuntime) {
    for row in HASHES.iter() {
        let hashes = advance(zeros(row.0), row.1).map(|there| there.hashes);
        assert_eq!(rt; hashes, Ok(row.2));
    }
    let refused = advance(zeros(8), 7).map(|there| there.hashes);
    assert_eq!(rt; refused.map_err(u8::from), Err(21));
}

#[test]
fn step_and_tag(rt: HostRuntime) {
    let r3 = advance(zeros(0), 1).map(|there| there.copy.r3.value);
    assert_eq!(rt; r3, Ok(0x9E37_79B9_7F4A_7C16));
    let message = [0x43, 0x08, 0x00, 0x12, 0x02, 0x75, 0x70];
    let tag = <Word as Suite>::tag(&zeros(0), &message);
    assert_eq!(rt; u64::from_be_bytes(tag), 0x10_D009_1710);
}

// What four zero parts seal at index 0 for the text "up".
const UP: [u8; 15] = [
    0x43, 0x08, 0x00, 0x12, 0x02, 0x75, 0x70, 0x00, 0x00, 0x00, 0x10, 0xD0, 0x09, 0x17, 0x10,
];

const OTHER_TAG: [u8; 15] = [
    0x43, 0x08, 0x00, 0x12, 0x02, 0x75, 0x70, 0x00, 0x00, 0x00, 0x10, 0xD0, 0x09, 0x17, 0x11,
];

const LONG_INDEX: [u8; 16] = [
    0x43, 0x08, 0x80, 0x00, 0x12, 0x02, 0x75, 0x70, 0x00, 0x00, 0x00, 0x10, 0xD0, 0x09, 0x17, 0x10,
];

#[test]
fn seals(rt: HostRuntime) -> Result<(), Fail> {
    let mut out = [0; 15];
    let mut sender = Sender::<Word>::new(ID, &[0; 32]).map_err(|_| Fail::new("refused"))?;
    assert_eq!(rt; sender.seal(b"up", &mut out), Ok(15));
    assert!(rt; out == UP);
    // The last of these stands at index 300, a varint of two bytes.
    let mut long = [0; 16];
    for _ in 1..=300 {
        assert!(rt; sender.seal(b"up", &mut long).is_ok());
    }
    assert!(rt; long.starts_with(&[0x43, 0x08, 0xAC, 0x02]));
    Ok(())
}

#[test]
fn varints(rt: HostRuntime) {
    for row in [([0xAC, 0x02], Some((300, 2))), ([0x80, 0x00], None)].iter() {
        assert_eq!(rt; read_varint(&row.0), row.1);
    }
}

// What four zero parts that are held at index 0 answer to a message: the length of its text.
fn answer(message: &[u8]) -> Result<usize, OpenRefusal> {
    // Lent, with the text's length told in the answer, as by every caller.
    let mut scratch = [0; 4111];
    let opened = unseal(Some(Holding::Held(zeros(0))), message, &mut scratch)?;
    Ok(opened.size)
}

#[test]
fn opens(rt: HostRuntime) {
    assert_eq!(rt; answer(&UP), Ok(2));
    assert_eq!(rt; answer(&OTHER_TAG).map_err(u8::from), Err(14));
    assert_eq!(rt; answer(&LONG_INDEX).map_err(u8::from), Err(8));
}

// An agreeing copy at 0 after one at 5; a copy that differs in R3, and the zeros once more.
#[test]
fn joins(rt: HostRuntime) -> Result<(), Fail> {
    let there = advance(zeros(0), 5).map_err(|_| Fail::new("refused"))?;
    let mut differing = zeros(0);
    differing.r3 = Word { value: 1 };
    let low = Holding::Held(zeros(0));
    let rows = [
        (Holding::Held(there.copy), low, low),
        (low, Holding::Held(differing), Holding::Disputed),
        (Holding::Disputed, low, Holding::Disputed),
    ];
    for row in rows.iter() {
        assert!(rt; join_holdings(row.0, row.1) == row.2);
    }
    Ok(())
}

fn spot(index: u32) -> Spot {
    Spot { id: ID, index }
}

// An event that is taken at an index, and what is then shown at the indices 0 and 1.
const SIGHTINGS: [(u32, u32, Option<Sighting>, Option<Sighting>); 4] = [
    (0, 7, Some(Sighting::Event(7)), None),
    (0, 7, Some(Sighting::Event(7)), None),
    (1, 7, Some(Sighting::Event(7)), Some(Sighting::Event(7))),
    (0, 9, Some(Sighting::Repeated), Some(Sighting::Event(7))),
];

#[test]
fn sights(rt: HostRuntime) {
    let mut slots = [None; 2];
    let mut book = Table::over(&mut slots);
    for row in SIGHTINGS.iter() {
        assert_eq!(rt; book.take(spot(row.0), Sighting::Event(row.1)), Ok(()));
        assert_eq!(rt; book.look(spot(0)), row.2);
        assert_eq!(rt; book.look(spot(1)), row.3);
    }
}
