// Why a trip has no report; printed in its place.
use refusal::Refusal;
use thiserror::Error;

#[derive(Clone, Copy, Debug, Error)]
pub(crate) enum Failure {
    // Of a refused input its number alone.
    #[error("refused {}", .0.number())]
    Refused(#[from] Refusal),
    #[error("rejected")]
    Rejected,
}
