// The same calls on longer buffers, of which only the first places are lent; as many as there are.
ghost use Rattle.std.specs.Prelude.{◌≡◌, take, drop};
ghost use Rattle.item.specs.Start.{modulus_of};
ghost use Rattle.calls.specs.Step.{lending, step};
ghost use Rattle.calls.specs.QueryStep.{ask};
ghost use Rattle.dispatch.specs.Made.{result_of};
ghost use Rattle.dispatch.specs.Told.{heard_in};

use super::query::Heard;
use calls::Call;
use calls::query::Query;
use pass::Pass;
use prover::{Run, Step};
use records::parts::{first, within};
use verifier::Verifier;

pub fn make_within(
    run: Run,
    pass: Pass,
    call: Call,
    flent: usize,
    glent: usize,
    size: usize,
    f: &mut [u32],
    g: &mut [u32],
    file: &mut [u8],
) -> Step
    ensures { (result_of result (take flent f.new) (take glent g.new) (take size file.new) ≡ step (modulus_of run.start) run pass call (lending (take flent f.old) (take glent g.old) (take size file.old))) × (drop flent f.new ≡ drop flent f.old) × (drop glent g.new ≡ drop glent g.old) × (drop size file.new ≡ drop size file.old) }
{
    let n = within(flent, f);
    let m = within(glent, g);
    let k = within(size, file);
    super::make(run, pass, call, &mut f[..n], &mut g[..m], &mut file[..k])
}

pub fn ask_within(
    verifier: Verifier,
    query: Query,
    size: usize,
    file: &[u8],
    values: &[u32],
    logs: &[u32],
) -> Heard
    ensures { heard_in result ≡ ask (modulus_of verifier.start) verifier query (record { file = take size file.now; values = values.now; logs = logs.now }) }
{
    super::query::ask(verifier, query, first(size, file), values, logs)
}
