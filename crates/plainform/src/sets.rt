// The number that a class has among sets.
ghost use Rattle.std.specs.Prelude.{◌≡◌, ◌-◌, ◌≤◌, length};
ghost use Rattle.definitions.specs.Forms.{most_nodes};
ghost use Rattle.definitions.specs.Lists.{◌!◌};
ghost use Rattle.definitions.specs.PlainForm.{class_among};

use tables::classes::set_of;

// The number of a class where the classes have these sets, one past the last where its set is none of them.
// A number where it is none of them too, as the definition says: no class of a known book is.
pub fn class_among(classes: &[u64], sets: &[u64], class: u32) -> u32
    requires { length sets.now ≤ most_nodes }
    ensures { result ≡ class_among sets.now (classes.now ! (class - 1)) }
{
    let set = set_of(classes, class);
    let place = sets.iter().position(|other| *other == set);
    (place.unwrap_or(sets.len()) + 1) as u32
}
