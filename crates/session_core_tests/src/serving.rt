//! Two connections at the same places, served as things happen to them.

ghost use Rattle.std.specs.Prelude.{◌≡◌, ◌≢◌, ◌≤◌, ℕ, IsTrue, map};
ghost use Rattle.turn_log.specs.Turn.{SamePlace};
ghost use Rattle.session_calls.specs.Rings.{AllSpeak, SamePlaces};
ghost use Rattle.cast_config.specs.Kept.{KeepsRules};
ghost use Rattle.session_model.specs.Called.{OthersCalled, alone_at, seen_at};
ghost use Rattle.session_model.specs.Setting.{caps, shapes};
ghost use Rattle.session_model.specs.Setting as setting;
ghost use Rattle.session_core.specs.Standing.{Follows};

use cast_config::Config;
use caster_accounts::Book;
use mount_ring::Ring;
use session_core::{Last, Places, Receipt, RoverState, Session};
use turn_log::Turns;

/// How many bytes may come in all on two connections.
pub const MAX_INPUT_BYTES: usize = 1 << 32;

/// What happens to a connection.
#[derive(Clone, Copy, Debug)]
pub enum Act<'a> {
    /// These bytes come in.
    In(&'a [u8]),
    /// It takes a turn of so many frames.
    Turn(u32),
}

/// One of two connections.
#[derive(Clone, Copy, Debug, PartialEq, Eq)]
pub enum Who {
    /// The first one.
    First,
    /// The second one.
    Second,
}

/// A connection, and what it was sent.
#[derive(Drop)]
pub struct Served {
    /// The connection.
    pub session: Session,
    /// What it was sent.
    pub sent: Vec<u8>,
}

/// Two connections.
#[derive(Drop)]
pub struct Two {
    /// The first one.
    pub first: Served,
    /// The second one.
    pub second: Served,
}

/// Something happens to a connection, unless it has ended. Of bytes as many come in as there is
/// room for; answers for how many there still is.
fn happen<T: Turns<Ring>, B: Turns<Book>>(
    config: &Config,
    table: &[u8],
    served: &mut Served,
    act: Act,
    room: usize,
    places: &mut Places<T, B>,
) -> usize
    requires kept { (cap : ℕ) × KeepsRules cap config.now }
    requires table { table.now ≡ setting.table config.now }
    requires shapes { map T.shape places.old.rings.items ≡ shapes config.now }
    requires caps { B.shape places.old.book ≡ caps config.now }
    requires rings { AllSpeak T.speaks places.old.rings.items served.old.session.me }
    requires book { IsTrue (B.speaks places.old.book served.old.session.me) }
    requires alone { IsTrue (alone_at T.alone B.alone places.old.rings.items places.old.book) }
    requires follows { Follows config.now served.old.session
        (seen_at T.seen B.seen places.old.rings.items places.old.book) room }
    ensures me { served.new.session.me ≡ served.old.session.me }
    ensures same_rings { SamePlaces T.shape T.speaks T.may_lack T.alone T.home
        places.old.rings.items places.new.rings.items }
    ensures same_book { SamePlace B.shape B.speaks B.may_lack B.alone B.home
        places.old.book places.new.book }
    ensures follows { Follows config.now served.new.session
        (seen_at T.seen B.seen places.new.rings.items places.new.book) result }
    ensures less { result ≤ room }
    ensures others { (by : ℕ) → by ≢ served.old.session.me → OthersCalled
        (seen_at T.seen B.seen places.old.rings.items places.old.book)
        (seen_at T.seen B.seen places.new.rings.items places.new.book) by }
{
    if served.session.ended() {
        return room;
    }
    match act {
        Act::In(bytes) => {
            let bytes = &bytes[..bytes.len().min(room)];
            let _flow = served
                .session
                .feed(config, table, bytes, places, &mut served.sent);
            room - bytes.len()
        }
        Act::Turn(budget) => {
            let _flow = served.session.turn(budget, places, &mut served.sent);
            room
        }
    }
}

/// Something happens to one of two connections.
fn happen_to<T: Turns<Ring>, B: Turns<Book>>(
    config: &Config,
    table: &[u8],
    two: &mut Two,
    who: Who,
    act: Act,
    room: usize,
    places: &mut Places<T, B>,
) -> usize
    requires kept { (cap : ℕ) × KeepsRules cap config.now }
    requires table { table.now ≡ setting.table config.now }
    requires shapes { map T.shape places.old.rings.items ≡ shapes config.now }
    requires caps { B.shape places.old.book ≡ caps config.now }
    requires rings { (me : ℕ) → AllSpeak T.speaks places.old.rings.items me }
    requires book { (me : ℕ) → IsTrue (B.speaks places.old.book me) }
    requires alone { IsTrue (alone_at T.alone B.alone places.old.rings.items places.old.book) }
    requires apart { two.old.first.session.me ≢ two.old.second.session.me }
    requires first { Follows config.now two.old.first.session
        (seen_at T.seen B.seen places.old.rings.items places.old.book) room }
    requires second { Follows config.now two.old.second.session
        (seen_at T.seen B.seen places.old.rings.items places.old.book) room }
    ensures first_me { two.new.first.session.me ≡ two.old.first.session.me }
    ensures second_me { two.new.second.session.me ≡ two.old.second.session.me }
    ensures same_rings { SamePlaces T.shape T.speaks T.may_lack T.alone T.home
        places.old.rings.items places.new.rings.items }
    ensures same_book { SamePlace B.shape B.speaks B.may_lack B.alone B.home
        places.old.book places.new.book }
    ensures first { Follows config.now two.new.first.session
        (seen_at T.seen B.seen places.new.rings.items places.new.book) result }
    ensures second { Follows config.now two.new.second.session
        (seen_at T.seen B.seen places.new.rings.items places.new.book) result }
{
    match who {
        Who::First => happen(config, table, &mut two.first, act, room, places),
        Who::Second => happen(config, table, &mut two.second, act, room, places),
    }
}

/// Closes a connection.
fn close_at<T: Turns<Ring>, B: Turns<Book>>(
    config: &Config,
    session: Session,
    last: Last,
    places: &mut Places<T, B>,
) -> Receipt
    requires shapes { map T.shape places.old.rings.items ≡ shapes config.now }
    requires caps { B.shape places.old.book ≡ caps config.now }
    requires rings { AllSpeak T.speaks places.old.rings.items session.me }
    requires book { IsTrue (B.speaks places.old.book session.me) }
    requires alone { IsTrue (alone_at T.alone B.alone places.old.rings.items places.old.book) }
    requires follows { Follows config.now session
        (seen_at T.seen B.seen places.old.rings.items places.old.book) 0 }
    ensures same_rings { SamePlaces T.shape T.speaks T.may_lack T.alone T.home
        places.old.rings.items places.new.rings.items }
    ensures same_book { SamePlace B.shape B.speaks B.may_lack B.alone B.home
        places.old.book places.new.book }
    ensures others { (by : ℕ) → by ≢ session.me → OthersCalled
        (seen_at T.seen B.seen places.old.rings.items places.old.book)
        (seen_at T.seen B.seen places.new.rings.items places.new.book) by }
{
    session.close(last, places)
}

/// What became of a connection, and what it was sent.
#[derive(Drop)]
pub struct ConnectionOutcome {
    /// Where it stood as a rover before it was closed.
    pub rover: Option<RoverState>,
    /// What became of it.
    pub receipt: Receipt,
    /// What it was sent.
    pub sent: Vec<u8>,
}

/// Plays these acts on two connections. Then the first is closed for this reason, and the second at
/// its end.
pub fn serve_two<T: Turns<Ring>, B: Turns<Book>>(
    config: &Config,
    table: &[u8],
    two: Two,
    script: &[(Who, Act)],
    last: Last,
    places: &mut Places<T, B>,
) -> (ConnectionOutcome, ConnectionOutcome)
    requires kept { (cap : ℕ) × KeepsRules cap config.now }
    requires table { table.now ≡ setting.table config.now }
    requires shapes { map T.shape places.old.rings.items ≡ shapes config.now }
    requires caps { B.shape places.old.book ≡ caps config.now }
    requires rings { (me : ℕ) → AllSpeak T.speaks places.old.rings.items me }
    requires book { (me : ℕ) → IsTrue (B.speaks places.old.book me) }
    requires alone { IsTrue (alone_at T.alone B.alone places.old.rings.items places.old.book) }
    requires apart { two.first.session.me ≢ two.second.session.me }
    requires first { Follows config.now two.first.session
        (seen_at T.seen B.seen places.old.rings.items places.old.book) 4294967296 }
    requires second { Follows config.now two.second.session
        (seen_at T.seen B.seen places.old.rings.items places.old.book) 4294967296 }
    ensures same_rings { SamePlaces T.shape T.speaks T.may_lack T.alone T.home
        places.old.rings.items places.new.rings.items }
    ensures same_book { SamePlace B.shape B.speaks B.may_lack B.alone B.home
        places.old.book places.new.book }
{
    let mut two = two;
    let mut room = MAX_INPUT_BYTES;
    for step in script {
        let (who, act) = *step;
        room = happen_to(config, table, &mut two, who, act, room, places);
    }
    let Two { first, second } = two;
    let rover = first.session.rover();
    let receipt = close_at(config, first.session, last, places);
    let first = ConnectionOutcome {
        rover,
        receipt,
        sent: first.sent,
    };
    let rover = second.session.rover();
    let receipt = close_at(config, second.session, Last::End, places);
    let second = ConnectionOutcome {
        rover,
        receipt,
        sent: second.sent,
    };
    (first, second)
}
