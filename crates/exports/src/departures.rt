// disconnected, for C and Rust. A call that is refused hands nothing out.
ghost use Rattle.machine.specs.Call.{On, Disconnected};
ghost use Rattle.crossing.specs.Status.{HandsDeparture};

use crossing::hand_departure;

// The connection leaves every request that it is a candidate of. The keys of these stand in the answer, so many as `own` says, and behind them the keys of parents
// that are announced for the candidates left, so many as `parents` says.
#[unsafe(no_mangle)]
pub extern "C" fn tracker_disconnected(
    s: &mut [u8],
    connection: u64,
    clock: u64,
    answer: &mut [u8],
    own: &mut u64,
    parents: &mut u64,
) -> u64
    ensures { HandsDeparture (On (Disconnected connection clock answer.old))
        s.old s.new answer.new result own.old own.new parents.old parents.new }
{
    let d = public_packages::departures::disconnected(s, connection, clock, answer);
    hand_departure(d, own, parents)
}
