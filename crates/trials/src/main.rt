// Trials of the whole path from a scenario's bytes to its trace, and of the calls that a
// scenario cannot make. What it prints is compared with a stored text.
#![tactic(auto)]

mod calls;
mod files;

fn main(rt: HostRuntime) -> anyhow::Result<()> {
    files::stops(&rt)?;
    files::cut(&rt)?;
    files::set_up(&rt)?;
    files::runs(&rt)?;
    files::large(&rt)?;
    calls::questions(&rt)?;
    calls::small(&rt)?;
    Ok(())
}
