//! The roles of a vBucket as bytes of SET_VBUCKET_STATE.
ghost use Rattle.std.specs.Prelude.{◌≡◌};
ghost use Rattle.mcbp_dcp.specs.States.{role_byte, role_in};

use vb_types::Role;

/// The byte that stands for a role.
pub fn byte_of(role: Role) -> u8
    ensures { result ≡ role_byte role }
{
    match role {
        Role::Active => 1,
        Role::Replica => 2,
        Role::Pending => 3,
        Role::Dead => 4,
    }
}

/// The role that a byte from 1 to 4 stands for.
pub fn role_of(byte: u8) -> Role
    ensures { result ≡ role_in byte }
{
    match byte {
        1 => Role::Active,
        2 => Role::Replica,
        3 => Role::Pending,
        _ => Role::Dead,
    }
}
