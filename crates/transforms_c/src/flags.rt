// Flags from C: 0 is no, anything else yes. A flag and its value are two parameters in C, so no `From` takes them.
ghost use Rattle.std.specs.Prelude.{◌≡◌};
ghost use Rattle.transforms_c.specs.Flags.{age_of_flag, stamp_of_flag};

use time::stamp::Stamp;

pub(crate) fn max_age(has_max_age: u32, nanos: u64) -> Option<u64>
    ensures { result ≡ age_of_flag has_max_age nanos }
{
    (has_max_age != 0).then_some(nanos)
}

pub(crate) fn stamp(is_static: u32, instant: u64) -> Stamp
    ensures { result ≡ stamp_of_flag is_static instant }
{
    if is_static == 0 {
        Stamp::At(instant)
    } else {
        Stamp::Static
    }
}
