//! Links of chains: the place of a slot, or none, in four bytes.
ghost use Rattle.std.specs.Prelude.{◌≡◌, None, Some, IfSome};

use std::marker::Model;

/// The place of a slot, or none. It is half as large as an `Option<u32>`, and a table has one for each
/// bucket and each slot.
#[derive(Clone, Copy)]
pub(crate) struct Link {
    // 0 where there is none, else one more than the place.
    code: u32,
}

impl Model for Link {
    ghost use Rattle.std.specs.Prelude.{ℕ, Option};
    ghost use Rattle.std.proofs.Common.{ap};
    ghost use Rattle.desk_audit.specs.Links.{place_of, code_of, code_of_place};

    ghost Value = { Option ℕ };

    ghost view = { λ l. place_of l.code };

    ghost inverse = { λ place. record { code = code_of place } };

    ghost inverse_ok = { λ a h. ap (λ (c : ℕ). record { code = c }) (code_of_place a.code) };
}

impl Link {
    /// No place.
    pub(crate) const NONE: Link = Link { code: 0 };

    /// The place, if it is not the greatest of the type.
    pub(crate) fn to(place: u32) -> Option<Link>
        ensures { IfSome result (λ link. link ≡ Some place) }
    {
        let code = place.checked_add(1)?;
        Some(Link { code })
    }

    /// The place, if there is one.
    pub(crate) fn place(self) -> Option<u32>
        ensures { result ≡ self }
    {
        if self.code == 0 {
            None
        } else {
            Some(self.code - 1)
        }
    }
}
