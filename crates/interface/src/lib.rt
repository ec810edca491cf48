// What a caller's object is held to before its first call (include/mivtolgya.h: `mivtolgya_check_interface`). `mivtolgya` exports both.
#![tactic(auto)]

ghost use Rattle.std.specs.Prelude.{◌≡◌};
ghost use Rattle.interface.specs.Interface.{interface_version, device_size};

pub fn version() -> u64
    ensures { result ≡ interface_version }
{
    1
}

// The size of the device's record in bytes.
pub fn device_size() -> usize
    ensures { result ≡ device_size }
{
    904
}
