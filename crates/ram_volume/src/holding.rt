//! A slot whose value is taken out while a call works on it.

ghost use Rattle.std.specs.Prelude.{◌≡◌, IsSome, Some, None};

/// Takes the value out of its slot.
pub fn take_out<T>(slot: &mut Option<T>) -> T
    requires { IsSome slot.old }
    ensures value { slot.old ≡ Some result }
    ensures after { slot.new ≡ None }
{
    let Some(value) = slot.take() else {
        unreachable!();
    };
    value
}

/// Puts a value into a slot that has none.
pub fn put_in<T>(slot: &mut Option<T>, value: T)
    requires { slot.old ≡ None }
    ensures { slot.new ≡ Some value }
{
    match slot.replace(value) {
        None => {}
        Some(_before) => unreachable!(),
    }
}
