//! Fronts of texts.
ghost use Rattle.std.specs.Prelude.{◌≡◌};
ghost use Rattle.litrs_base.specs.Text.{begins_with};

/// Returns `true` if `bytes` starts with `front`.
#[tactic(auto, using(crate::proofs::Fronts::starts_with_front))]
pub(crate) fn begins_with(front: &[u8], bytes: &[u8]) -> bool
    ensures { result ≡ begins_with front.now bytes.now }
{
    bytes.starts_with(front)
}
