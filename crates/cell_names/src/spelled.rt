// Octets that spell components, compared without memory.
ghost use Rattle.std.specs.Prelude.{◌≡◌, ◌≢◌, ◌++◌, ◌∷◌, ℕ, List, MatchOption};
ghost use Rattle.cds_stamps.specs.Octets.{is_octets};
ghost use Rattle.cell_names.specs.FullNames.{slash, full_name_octets, behind_slashes};

use crate::full_name::ROOT;
use cds_stamps::SimpleName;

/// Whether octets are the root of the cell and these components.
pub(crate) fn spell(octets: &[u8], components: &[SimpleName]) -> bool
    ensures { result ≡ is_octets (full_name_octets components.now) octets.now }
{
    match behind_name(octets, components) {
        Some(rest) => rest.is_empty(),
        None => false,
    }
}

/// What is after the root of the cell and these components, if octets begin so.
pub(crate) fn behind_name<'a>(octets: &'a [u8], components: &[SimpleName]) -> Option<&'a [u8]>
    ensures { MatchOption result
        ((rest : List ℕ) → octets.now ≢ full_name_octets components.now ++ rest)
        (λ rest. octets.now ≡ full_name_octets components.now ++ rest.now) }
{
    behind_components(octets.strip_prefix(ROOT)?, components)
}

// What is after these components, each after a slash, if octets begin so.
fn behind_components<'a>(octets: &'a [u8], components: &[SimpleName]) -> Option<&'a [u8]>
    ensures { MatchOption result
        ((rest : List ℕ) → octets.now ≢ behind_slashes components.now ++ rest)
        (λ rest. octets.now ≡ behind_slashes components.now ++ rest.now) }
{
    let mut rest = octets;
    for component in components {
        match behind_component(rest, component.octets()) {
            Some(behind) => rest = behind,
            None => return None,
        }
    }
    Some(rest)
}

// What is after a slash and this component, if octets begin so.
fn behind_component<'a>(octets: &'a [u8], component: &[u8]) -> Option<&'a [u8]>
    ensures { MatchOption result
        ((rest : List ℕ) → octets.now ≢ slash ∷ (component.now ++ rest))
        (λ rest. octets.now ≡ slash ∷ (component.now ++ rest.now)) }
{
    octets.strip_prefix(b"/")?.strip_prefix(component)
}
