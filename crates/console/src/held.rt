// What the console holds from line to line.
use aes_schedule::KeySchedule;
use cmac::Record;
use cmac_run::Run;
use image_progress::Progress;
use image_reader::Reader;
use image_receiver::Receiver;
use image_receiver_answer::Receipt;
use image_spec::KeyPair;

#[derive(Clone, Copy)]
pub struct Held {
    pub record: Record,
    pub reader: Reader,
    pub receiver: Receiver,
}

impl Held {
    // The zero record and the zero state stand for no start.
    pub fn new() -> Held {
        Held {
            record: Record {
                schedule: KeySchedule::none(),
                run: Run::new(),
            },
            reader: Reader {
                keys: KeyPair::none(),
                progress: Progress::start(),
            },
            receiver: Receiver {
                keys: KeyPair::none(),
                receipt: Receipt {
                    count: 0,
                    release: 0,
                    held: 0,
                    bytes: 0,
                },
            },
        }
    }
}
