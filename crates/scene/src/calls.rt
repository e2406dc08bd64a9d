// The calls of this scene.
use frames::Action::{Gap, Request, Take, Waiting};
use frames::{Action, Call};
use limits::LAST_TICK;

fn on(bell: u64, action: Action) -> Call {
    Call { bell, action }
}

pub(super) fn scene() -> [Call; 24] {
    [
        on(0, Request(0)),
        on(0, Request(0)),
        on(0, Request(0)),
        on(0, Gap(5)),
        on(0, Take(10)),
        on(0, Request(5)),
        on(1, Request(5)),
        on(1, Request(5)),
        on(1, Request(100)),
        on(2, Request(100)),
        on(3, Request(200)),
        on(3, Request(300)),
        on(1, Waiting),
        on(1, Take(404)),
        on(1, Take(404)),
        on(1, Take(500)),
        on(0, Gap(60_000)),
        on(0, Take(60_000)),
        on(0, Take(60_000)),
        on(0, Take(60_000)),
        on(0, Gap(3_660_000)),
        on(3, Request(LAST_TICK + 1)),
        on(3, Request(LAST_TICK)),
        on(3, Request(LAST_TICK)),
    ]
}
