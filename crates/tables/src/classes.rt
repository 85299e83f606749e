// The set of a class, out of the table of classes.
ghost use Rattle.std.specs.Prelude.{◌≡◌, ◌-◌};
ghost use Rattle.definitions.specs.Lists.{◌!◌};

use lines::counting::from_zero;

// The set of a class, empty beyond the table; class 0 counts as 1.
pub fn set_of(classes: &[u64], class: u32) -> u64
    ensures { result ≡ classes.now ! (class - 1) }
{
    classes.get(from_zero(class)).copied().unwrap_or(0)
}
