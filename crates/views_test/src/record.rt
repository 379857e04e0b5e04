// A record: processors in 1 byte, the lengths of plan and steps in 2 bytes each, and then plan, steps and, for each
// of the plan's tasks, 20 bytes: number, state, desk and place, the four levels of its word, its children.
use plan::{ProcessorId, TaskId, Word};
use plan_file::fields::word_at;
use show_files::records::{Bytes, Record};

// What a record says.
#[derive(Clone, Copy)]
pub struct Shown<'a> {
    pub processors: u8,
    pub plan: &'a [u8],
    pub steps: &'a [u8],
    pub views: &'a [u8],
}

// The first field of the plan is how many tasks it has: the two bytes at its place, however long it is.
impl<'a> Record<'a> for Shown<'a> {
    fn read(file: &mut Bytes<'a>) -> Option<Shown<'a>> {
        let processors = file.byte()?;
        let size = file.word()?;
        let stepped = file.word()?;
        let tasks = word_at(file.rest, 0);
        Some(Shown {
            processors,
            plan: file.part(size as usize)?,
            steps: file.part(stepped as usize)?,
            views: file.part(20 * tasks as usize)?,
        })
    }
}

// What is shown of one task.
#[derive(Clone, Copy)]
pub struct View {
    pub task: TaskId,
    pub state: u8,
    pub processor: ProcessorId,
    pub pc: u8,
    pub word: Word,
    pub children: u64,
}

impl<'a> Record<'a> for View {
    fn read(file: &mut Bytes<'a>) -> Option<View> {
        Some(View {
            task: TaskId(file.byte()?),
            state: file.byte()?,
            processor: ProcessorId(file.byte()?),
            pc: file.byte()?,
            word: Word(file.word()?, file.word()?, file.word()?, file.word()?),
            children: file.long()?,
        })
    }
}
