// What the C driver calls, exported: each call is that of the library `driver`, with its promise.
#![tactic(auto)]

ghost use Rattle.std.specs.Prelude.{◌≡◌};
ghost use Rattle.plan.specs.Outcomes.{start_number};
ghost use Rattle.driver.specs.Runs.{RunMeets};
ghost use Rattle.driver.specs.Logs.{logs_outcome};

// Plan check: whether a plan file can be started on this many desks. 0, or the number of the refusal.
#[unsafe(no_mangle)]
pub extern "C" fn mortarsedge_plan_check(processors: u32, plan: &[u8]) -> u32
    ensures { result ≡ start_number processors plan.now }
{
    driver::mortarsedge_plan_check(processors, plan)
}

// The run: a plan file and a step file on this many desks, the trace into the lent output. The number
// of the answer, and 256 times the number of bytes that are filled.
#[unsafe(no_mangle)]
pub extern "C" fn mortarsedge_run<'a>(
    processors: u32,
    plan: &'a [u8],
    steps: &'a [u8],
    out: &'a mut [u8],
) -> u64
    ensures { RunMeets processors plan.now steps.now out.old result out.new }
{
    driver::mortarsedge_run(processors, plan, steps, out)
}

// The check: 0 for yes, 256 times the lowest channel for no, 24 or 25 where the logs are refused.
#[unsafe(no_mangle)]
pub extern "C" fn mortarsedge_logs<'a>(sent: &'a [u8], received: &'a [u8]) -> u64
    ensures { result ≡ logs_outcome sent.now received.now }
{
    driver::log_files::mortarsedge_logs(sent, received)
}
