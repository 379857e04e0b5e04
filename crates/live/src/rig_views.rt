// What tablets and the driver show of a task of a live rig, as bytes.
ghost use Rattle.std.specs.Prelude.{◌≡◌, ◌≤◌};
ghost use Rattle.board.specs.packing.Packed.{state_number};
ghost use Rattle.image.specs.Live.{tablet_bytes, driver_bytes, TabletMeets, DriverMeets};

use live_rig::found::find;
use live_rig::given::byte_given;
use plan::TaskId;
use rig_write::numbers::put_bytes;
use rules::task::TaskState;
use rules::view::{DriverView, TabletView};
use views::{driver_view, tablet_view};

// A task's state as a byte.
fn state_byte(s: TaskState) -> u8
    ensures { result ≡ state_number s }
{
    match s {
        TaskState::Unborn => 0,
        TaskState::Ready => 1,
        TaskState::Waiting => 2,
        TaskState::Sending => 3,
        TaskState::Receiving => 4,
        TaskState::Moving => 5,
        TaskState::Done => 6,
    }
}

// A tablet's record as bytes.
fn tablet_bytes(v: TabletView) -> [u8; 4]
    ensures { result ≡ tablet_bytes v }
{
    let t = v.task;
    let state = v.state;
    let at = v.processor;
    [t.0, state_byte(state), at.0, v.pc]
}

// The driver's record as bytes.
fn driver_bytes(v: DriverView) -> [u8; 21]
    requires { v.living ≤ 255 }
    ensures { result ≡ driver_bytes v }
{
    let x = v.tablet;
    let t = x.task;
    let state = x.state;
    let at = x.processor;
    let w = v.word;
    let c = v.children;
    let c1 = c / 256;
    let c2 = c1 / 256;
    let c3 = c2 / 256;
    let c4 = c3 / 256;
    let c5 = c4 / 256;
    let c6 = c5 / 256;
    let c7 = c6 / 256;
    [
        t.0,
        state_byte(state),
        at.0,
        x.pc,
        (w.0 % 256) as u8,
        (w.0 / 256) as u8,
        (w.1 % 256) as u8,
        (w.1 / 256) as u8,
        (w.2 % 256) as u8,
        (w.2 / 256) as u8,
        (w.3 % 256) as u8,
        (w.3 / 256) as u8,
        (c % 256) as u8,
        (c1 % 256) as u8,
        (c2 % 256) as u8,
        (c3 % 256) as u8,
        (c4 % 256) as u8,
        (c5 % 256) as u8,
        (c6 % 256) as u8,
        (c7 % 256) as u8,
        v.living as u8,
    ]
}

// What a tablet shows of a task: its record into the lent output. 0, or the number of the refusal.
#[unsafe(no_mangle)]
pub extern "C" fn mortarsedge_tablet_view<'a>(rig: &'a [u8], task: u32, out: &'a mut [u8]) -> u32
    ensures { TabletMeets rig.now task out.old result out.new }
{
    if out.len() < 4 {
        return 20;
    }
    let t = TaskId(byte_given(task));
    let f = find(rig, t);
    if f.number != 0 {
        return f.number;
    }
    let x = f.task;
    let v = tablet_view(t, x);
    let bytes = tablet_bytes(v);
    put_bytes(out, 0, &bytes);
    0
}

// What the driver shows of a task: its record into the lent output. 0, or the number of the refusal.
#[unsafe(no_mangle)]
pub extern "C" fn mortarsedge_driver_view<'a>(rig: &'a [u8], task: u32, out: &'a mut [u8]) -> u32
    ensures { DriverMeets rig.now task out.old result out.new }
{
    if out.len() < 21 {
        return 20;
    }
    let t = TaskId(byte_given(task));
    let f = find(rig, t);
    if f.number != 0 {
        return f.number;
    }
    let x = f.task;
    let v = driver_view(t, x);
    let bytes = driver_bytes(v);
    put_bytes(out, 0, &bytes);
    0
}
