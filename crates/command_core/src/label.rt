//! Which containers are accepted if a label is asked for.
ghost use Rattle.std.specs.Prelude.{◌≡◌, ◌≤◌, ◌↔◌, List, ℕ, length, option_map, take, true};
ghost use Rattle.container_core.specs.Container.{header_length};
ghost use Rattle.command_core.specs.Labels.{IsLabelled};

use container_core::{Header, begins_as_two};

/// Whether a container with this header has the label asked for, if there is one.
pub fn is_labelled(header: &Header, asked: Option<&[u8]>) -> bool
    ensures { (input : List ℕ) → header.now ≡ take (header_length input) input → header_length input ≤ length input
        → (result ≡ true) ↔ IsLabelled (option_map (λ label. label.now) asked.entry) input }
{
    match asked {
        None => true,
        Some(label) => begins_as_two(header.bytes()) && header.label() == label,
    }
}
