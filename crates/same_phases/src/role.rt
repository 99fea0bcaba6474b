// What images of the new program show.

ghost use Rattle.std.specs.Prelude.{◌≡◌, Some, slice_get, IfSome};

// What an image of the new program shows of the old one's images, which are named by their numbers.
#[derive(Clone, Copy)]
pub enum Role {
    // This phase of this image.
    Phase(u32, u32),
    // A column of this image, counted from the first column at the point, or the column of the frame that is nearest to it.
    Column(u32, i64),
    // 1 in the frame, and 0 outside.
    Frame,
}

impl Role {
    // 1 for a phase of an image, and 0 for another role.
    pub fn phase_count(self) -> u32 {
        match self {
            Role::Phase(_, _) => 1,
            Role::Column(_, _) => 0,
            Role::Frame => 0,
        }
    }
}

// One of the phases.
#[derive(Clone, Copy)]
pub struct PhaseIndex {
    pub phases: u32,
    pub phase: u32,
}

// The role of an image, if it is in the table.
pub fn role_of(roles: &[Role], image: u32) -> Option<Role>
    ensures { IfSome result (λ role. slice_get roles.now image ≡ Some role) }
{
    match roles.get(image as usize) {
        Some(role) => Some(*role),
        None => None,
    }
}
