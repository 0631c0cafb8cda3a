// The part of a pass that the kernel works on.
ghost use Rattle.std.specs.Prelude.{◌≡◌};
ghost use Rattle.pass.specs.Pass.{kernel_of, with_kernel};

use super::Pass;
use kernel::Kernel;

pub fn kernel_of(pass: Pass) -> Kernel
    ensures { result ≡ kernel_of pass }
{
    let Pass {
        flevels,
        fvalues,
        fcount,
        glevels,
        gvalues,
        gcount,
        even,
        cross,
        odd,
        evals,
        ..
    } = pass;
    Kernel {
        flevels,
        fvalues,
        fcount,
        glevels,
        gvalues,
        gcount,
        even,
        cross,
        odd,
        evals,
    }
}

pub fn with_kernel(pass: Pass, k: Kernel) -> Pass
    ensures { result ≡ with_kernel pass k }
{
    let Kernel {
        flevels,
        fvalues,
        fcount,
        glevels,
        gvalues,
        gcount,
        even,
        cross,
        odd,
        evals,
    } = k;
    Pass {
        flevels,
        fvalues,
        fcount,
        glevels,
        gvalues,
        gcount,
        even,
        cross,
        odd,
        evals,
        ..pass
    }
}
