//! Figures of steps, against hand arithmetic.
use base::Figures;

const fn figures(scale: i128, offset: i128, threshold: i128) -> Figures {
    Figures {
        scale,
        offset,
        threshold,
    }
}

#[test]
fn figures_of_steps(rt: HostRuntime) {
    let first = Figures {
        scale: 2,
        offset: -3,
        threshold: 7,
    };
    // 5 times, and 4 more; and moved down by 10
    assert!(rt; first.after(5, 4) == figures(10, -11, 39));
    assert!(rt; first.moved(-10) == figures(2, -13, -3));
}
