// The booking desk's calls under their C names: what `sayurimpak` answers, in a static library. include/sayurimpak.h is their manual.
#![tactic(auto)]

ghost use Rattle.std.specs.Prelude.{◌≡◌};
ghost use Rattle.file_layout.specs.Format.{version_one};
ghost use Rattle.query.specs.Query.{plain_query, with_code, with_gate, with_margin};
ghost use Rattle.sayurimpak.specs.Desk.{desk_outcome};

// A plan for a C host, which passes numbers and bytes only.
#[unsafe(no_mangle)]
pub extern "C" fn sayurimpak_plan(
    file: &[u8],
    source: u32,
    target: u32,
    minute: u32,
    code: u32,
    out: &mut [u8],
) -> u32
    ensures { (result ≡ (desk_outcome version_one file.now (with_code code (plain_query source target minute)) out.old).answer)
        × (out.new ≡ (desk_outcome version_one file.now (with_code code (plain_query source target minute)) out.old).bytes) }
{
    sayurimpak::sayurimpak_plan(file, source, target, minute, code, out)
}

// The same with a margin between the rides of a stop.
#[unsafe(no_mangle)]
pub extern "C" fn sayurimpak_plan_margin(
    file: &[u8],
    source: u32,
    target: u32,
    minute: u32,
    code: u32,
    margin: u32,
    out: &mut [u8],
) -> u32
    ensures { (result ≡ (desk_outcome version_one file.now (with_margin margin (with_code code (plain_query source target minute))) out.old).answer)
        × (out.new ≡ (desk_outcome version_one file.now (with_margin margin (with_code code (plain_query source target minute))) out.old).bytes) }
{
    sayurimpak::sayurimpak_plan_margin(file, source, target, minute, code, margin, out)
}

// The same where gates close so many minutes before departure.
#[unsafe(no_mangle)]
pub extern "C" fn sayurimpak_plan_gate(
    file: &[u8],
    source: u32,
    target: u32,
    minute: u32,
    code: u32,
    margin: u32,
    gate: u32,
    out: &mut [u8],
) -> u32
    ensures { (result ≡ (desk_outcome version_one file.now (with_gate gate (with_margin margin (with_code code (plain_query source target minute)))) out.old).answer)
        × (out.new ≡ (desk_outcome version_one file.now (with_gate gate (with_margin margin (with_code code (plain_query source target minute)))) out.old).bytes) }
{
    sayurimpak::sayurimpak_plan_gate(file, source, target, minute, code, margin, gate, out)
}
