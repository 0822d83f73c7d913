// Profiles by number.
ghost use Rattle.std.specs.Prelude.{◌≡◌};
ghost use Rattle.codes.specs.Profiles.{profile_of, profile_number};

use grammar::profile::Profile;

// The profile that has this number, if one has. Both types are foreign, so this is no `TryFrom`.
pub fn profile_of(number: u32) -> Option<Profile>
    ensures { result ≡ profile_of number }
{
    match number {
        0 => Some(Profile::Turso),
        1 => Some(Profile::Sqlite),
        _ => None,
    }
}

pub fn number_of(profile: Profile) -> u32
    ensures { result ≡ profile_number profile }
{
    profile as u32
}
