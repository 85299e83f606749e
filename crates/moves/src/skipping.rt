// The next arc of a state along which something leads on.
ghost use Rattle.std.specs.Prelude.{◌≡◌};
ghost use Rattle.moves.specs.Skipping.{leads_along, AfterSources, NextFound};

use definitions::ARC_SIZE;
use marks::Wanted;

// Whether something leads on along an arc with a phone.
fn leads_along(wanted: Wanted, phone: u32) -> bool
    ensures { result ≡ leads_along wanted phone }
{
    match wanted {
        Wanted::Words => true,
        Wanted::Phone { phone: own, .. } => phone == 0 || phone == own,
        Wanted::Nothing => phone == 0,
    }
}

// From an arc on: the arcs of the state along which nothing leads on are passed over. None where no further arc leads on.
pub fn next_arc(arcs: &[u32], from: usize, state: u32, wanted: Wanted) -> Option<usize>
    requires { AfterSources arcs.now state from }
    ensures { NextFound arcs.now state wanted from result }
{
    for at in from..arcs.len() / ARC_SIZE {
        if arcs[ARC_SIZE * at] != state {
            return None;
        }
        if leads_along(wanted, arcs[ARC_SIZE * at + 3]) {
            return Some(at);
        }
    }
    None
}
