//! The privilege levels.

ghost use Rattle.std.specs.Prelude.{◌≡◌, ◌↔◌, IsTrue};
ghost use Rattle.isa.specs.Privilege.{IsPrivilege, is_privilege};

/// Whether a number is a privilege level of this project's profile: 0 for user, 1 for supervisor, 3 for machine.
#[inline]
pub fn is_privilege(number: u64) -> bool
    ensures value { result ≡ is_privilege number }
    ensures level { IsTrue result ↔ IsPrivilege number }
{
    number == 0 || number == 1 || number == 3
}
