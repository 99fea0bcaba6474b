// What names denote.

use crate::fault::TypeError;
use dk_base::Ty;
use indexmap::IndexMap;
use std::alloc::Global;
use std::marker::Model;

// The images that may be read, by their names: inputs and earlier definitions, in the order of the text.
#[derive(Drop)]
pub(crate) struct Scope<'a> {
    images: IndexMap<&'a [u8], Ty>,
}

impl<'a> Model for Scope<'a> {
    ghost use Rattle.std.specs.Prelude.{List};
    ghost use Rattle.dk_types.specs.Scopes.{Named};
    ghost use Rattle.dk_types.specs.Entries.{named_in, IsFull};

    ghost Value = { List Named };

    ghost view = { λ s. named_in s.images.entries };

    ghost invariant = { λ s. IsFull (named_in s.images.entries) };
}

impl<'a> Scope<'a> {
    ghost use Rattle.std.specs.Prelude.{◌≡◌, ◌<◌, ◌++◌, ◌∷◌, [], length, MatchOption, MatchResult};
    ghost use Rattle.dk_base.specs.declared.TheConstants.{MAX_KEPT_IMAGES};
    ghost use Rattle.dk_base.specs.Types.{IsType};
    ghost use Rattle.dk_types.specs.Scopes.{IsImage, IsUnknown};
    ghost use Rattle.dk_types.specs.Entries.{IsFound};

    pub(crate) fn new(alloc: Global) -> Scope<'a>
        ensures { result ≡ [] }
    {
        Scope {
            images: IndexMap::new(alloc),
        }
    }

    // The number and the type of the image with this name.
    pub(crate) fn find(&self, name: &[u8]) -> Option<(u32, Ty)>
        ensures { MatchOption result (IsUnknown self.now name.now)
            (λ x. IsFound self.now name.now x.0 x.1) }
    {
        let (index, _, ty) = self.images.get_full(name)?;
        Some((index as u32, *ty))
    }

    // Adds the next image, which has a new name.
    pub(crate) fn add(&mut self, name: &'a [u8], ty: Ty) -> Result<(), TypeError>
        requires new { IsUnknown self.old name.now }
        requires room { length self.old < MAX_KEPT_IMAGES }
        requires is_type { IsType ty }
        ensures { MatchResult result
            (λ _. self.new ≡ self.old ++ (record { name = name.now; ty = ty }) ∷ [])
            (λ stop. stop ≡ TypeError.OutOfMemory) }
    {
        self.images.insert(name, ty)?;
        Ok(())
    }
}
