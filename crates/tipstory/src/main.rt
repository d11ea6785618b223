// Tells how an array loses devices, and how it gets back what was written. `chapters.rt` has the chapters; this has
// their order.
#![tactic(auto)]

mod chapters;
mod picture;
mod setting;
mod story;
mod told;

use setting::Setting;
use story::Story;

/// From new memory to the loss of a third device.
fn lose_three(rt: &HostRuntime, setting: &mut Setting) -> anyhow::Result<()> {
    let mut story = Story::over(rt, setting)?;
    story.begin()?;
    story.fill()?;
    let story = story.lose_in_a_write()?;
    let mut story = story.lose_in_a_read()?;
    story.lose_a_third()
}

/// What the loss of a fourth device does, on memory that is not needed afterwards.
fn lose_a_fourth(rt: &HostRuntime, mut setting: Setting) -> anyhow::Result<()> {
    let mut story = Story::over(rt, &mut setting)?;
    story.lose_a_fourth()
}

/// How all that was lost comes back.
fn mend(rt: &HostRuntime, setting: &mut Setting) -> anyhow::Result<()> {
    let mut story = Story::over(rt, setting)?;
    story.mend()
}

/// Tells the story. A fourth loss cannot be undone, so that one is told on a copy of the memory.
fn main(rt: HostRuntime) -> anyhow::Result<()> {
    println!(rt; "How an array loses devices, and how it gets back what was written.")?;
    let mut setting = Setting::new(rt.alloc())?;
    lose_three(&rt, &mut setting)?;
    lose_a_fourth(&rt, setting.clone()?)?;
    mend(&rt, &mut setting)
}
