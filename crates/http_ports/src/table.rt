ghost use Rattle.std.specs.Prelude.{◌≡◌, ◌≢◌, ◌<◌, ℕ, length};
ghost use Rattle.http_ports.specs.Loops.{kept_at};

// Keeps something else for a slot, and returns what was kept.
pub(crate) fn swap<C>(items: &mut [Option<C>], slot: usize, item: Option<C>) -> Option<C>
    requires { slot < length items.old }
    ensures took { result ≡ kept_at items.old slot }
    ensures put { kept_at items.new slot ≡ item }
    ensures elsewhere { (k : ℕ) → k ≢ slot → kept_at items.new k ≡ kept_at items.old k }
    ensures len { length items.new ≡ length items.old }
{
    std::mem::replace(&mut items[slot], item)
}
