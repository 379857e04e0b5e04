// 2 of a plan value.
ghost use Rattle.std.specs.Prelude.{◌≡◌};
ghost use Rattle.std.specs.List.{list_all};
ghost use Rattle.plan.specs.Refusals.{size_ok};
ghost use Rattle.plan_value.specs.Sizes.{sizes_in};

// T, or a count, is in range.
fn is_size(n: u8) -> bool
    ensures { result ≡ size_ok n }
{
    (1..=64).contains(&n)
}

fn are_sizes(counts: &[u8]) -> bool
    ensures { result ≡ list_all size_ok counts.now }
{
    counts.iter().all(|count| is_size(*count))
}

pub fn sizes_ok(tasks: u8, lengths: &[u8; 64]) -> bool
    ensures { result ≡ sizes_in tasks lengths.now }
{
    is_size(tasks) && are_sizes(&lengths[..tasks as usize])
}
