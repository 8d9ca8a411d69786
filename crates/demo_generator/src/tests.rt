use crate::demo_model;
use crate::draws::Draws;
use rm_model::{Cover, NameKeys};
use std::test::Fail;

// Whether the cover reads one name first and drives the other.
fn is_of(cover: &Cover, first: &str, output: &str) -> bool {
    let reads = match cover.inputs.items().first() {
        Some(name) => name.items() == first.as_bytes(),
        None => false,
    };
    reads && cover.output.items() == output.as_bytes()
}

#[test]
fn first_draw(rt: HostRuntime) -> Result<(), Fail> {
    let mut draws = Draws { state: 1 };
    assert!(rt; draws.draw(16) == 6);
    assert!(rt; draws.state == 7_806_831_264_735_756_412);
    Ok(())
}

#[test]
fn first_cover_reads_i6(rt: HostRuntime) -> Result<(), Fail> {
    let ranked = demo_model(rt.alloc(), NameKeys::Ordered, 1)?;
    let model = ranked.model();
    let reads = match model.covers.items().first() {
        Some(cover) => is_of(cover, "i6", "t0"),
        None => false,
    };
    assert!(rt; reads);
    assert!(rt; model.covers.len() == 60);
    Ok(())
}
