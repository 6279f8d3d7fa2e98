// Does many jobs from standard input, and prints for each what it comes to.
//
// Before each job stands a frame: kind (1), the text's length in bytes (2), the number of vector bytes (2), the length of the buffer to run into in bytes or
// of the table to count into in words, 1,024 at most (2). Then the text and the vector bytes follow as they are. The kind says what is printed.
//
//   00    what `reread` prints of the text
//   07    what `listing` prints of it
//   08    the outputs of the text run on the vectors, a digit 0 or 1 each, and a line feed; or the line of the refusal
//   09    the text's quote: `09`, period (2), register total (4), largest count (4), number of values to choose (4); or the line of the refusal
//   0A    the text's rails: `0A`, total (4), and for each node a line `0B`, node (2), its rails (4); or the line of the refusal
//   0C    which nodes are marked in the walk from the inputs, before the first pass and after each up to one that marks nothing: a line each, with a digit
//         0 or 1 for each node; or the line of the refusal (1 to 4: the walk goes over a netlist that 5, 6 or 7 is said of too)
//
// All ends with the input, at a line that is no such frame, or after 65,536 jobs. A text or vectors that the input cuts short are taken as they stand.
// Kept: the kit's `io`, over C's `read` and `write`, with buffers in frames, and no std::io: a read that fails is the end of the input, a write that fails ends no job, and no
// memory is asked for.
#![tactic(auto)]

// File descriptors.
const STDIN: i32 = 0;

const STDOUT: i32 = 1;

// A frame's line: seven bytes as digits, and the line feed.
const LINE: usize = 15;

const MOST_JOBS: u32 = 65536;

// The longest table to count into.
const MOST_WORDS: usize = 1024;

// No more passes are made than there are nodes.
const WALKS: usize = 513;

// What is printed of a text, by the kind of its frame.
#[derive(Clone, Copy)]
enum Task {
    Reread = 0,
    List = 7,
    Run = 8,
    Quote = 9,
    Rails = 10,
    Walk = 12,
}

const TASKS: [Task; 6] = [
    Task::Reread,
    Task::List,
    Task::Run,
    Task::Quote,
    Task::Rails,
    Task::Walk,
];

// What is done, and how long the text, the vectors and the buffer to run into or the table are.
#[derive(Clone, Copy)]
struct Job {
    task: Task,
    text: u16,
    vectors: u16,
    room: u16,
}

// The job whose frame the line is.
// Kept: the kinds are tried one by one, since `frame::line_at` finds a line of a kind that is given.
fn job_of(line: &[u8]) -> Option<Job> {
    for task in TASKS {
        if let Some(bytes) = frame::line_at::<6>(line, 0, task as u8) {
            let [t1, t0, v1, v0, r1, r0] = bytes;
            return Some(Job {
                task,
                text: u16::from_be_bytes([t1, t0]),
                vectors: u16::from_be_bytes([v1, v0]),
                room: u16::from_be_bytes([r1, r0]),
            });
        }
    }
    None
}

// The bytes of the input that fill the buffer, or as many as are left.
fn taken(buffer: &mut [u8]) -> &[u8] {
    let n = io::read_full(STDIN, buffer);
    &buffer[..n]
}

// Prints what `put` puts at the front of a buffer, of which it says how many bytes that is.
fn print<F: Fn(&mut [u8]) -> usize>(put: F)
    requires { F.IsAlwaysCallable put }
{
    let mut out = io::large_buffer();
    let len = put(&mut out).min(out.len());
    io::write_all(STDOUT, &out[..len]);
}

// Prints which nodes are marked, before the first pass and after each up to one that marks nothing.
fn print_walk(text: &[u8]) {
    for passes in 0..WALKS {
        let walked = match netlist::walk(text, passes) {
            Ok(walked) => walked,
            Err(reason) => {
                print(|out| printing::put_refusal(reason, out));
                return;
            }
        };
        let layer = walked.layer;
        let bits = layer.marks.map(u8::from);
        let marked = &bits[..walked.nodes.min(bits.len())];
        print(|out| printing::put_bits(marked, out));
        if layer.hi <= layer.lo {
            return;
        }
    }
}

// Takes a job's text and vectors from the input, as long as these buffers, and prints what it comes to.
fn print_taken(job: Job, text: &mut [u8], vectors: &mut [u8]) {
    let text = taken(text);
    let vectors = taken(vectors);
    let room = usize::from(job.room);
    match job.task {
        Task::Reread => print(|out| printing::reread(text, out)),
        Task::List => {
            let listing = printing::listing(text);
            io::write_all(STDOUT, &listing.bytes[..listing.len]);
        }
        Task::Run => print(|out| {
            let mut ran = io::large_buffer();
            let room = room.min(ran.len());
            printing::put_run(text, vectors, &mut ran[..room], out)
        }),
        Task::Quote => print(|out| printing::put_quote(text, out)),
        Task::Rails => print(|out| {
            let mut table = [0; MOST_WORDS];
            printing::put_rails(text, &mut table[..room.min(MOST_WORDS)], out)
        }),
        Task::Walk => print_walk(text),
    }
}

// A job, in buffers as long as a frame can ask for. They are made here and read into above, since in one function the compiler clears each of them twice.
fn print_job(job: Job) {
    let mut text = io::large_buffer();
    let mut vectors = io::large_buffer();
    let text = &mut text[..usize::from(job.text)];
    let vectors = &mut vectors[..usize::from(job.vectors)];
    print_taken(job, text, vectors);
}

fn main() {
    for _ in 0..MOST_JOBS {
        let mut line = [0; LINE];
        let Some(job) = job_of(taken(&mut line)) else {
            break;
        };
        print_job(job);
    }
}
