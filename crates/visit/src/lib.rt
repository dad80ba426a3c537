// A visit to a blob: whatever is answered, each token is spent.
#![tactic(auto)]

use disk::Disk;
use faults::Fault;
use rules::Mode;
use store::{Opened, Store};

pub fn visit<D: Disk>(store: &mut Store<D>, partition: &[u8], name: &[u8]) -> Result<(), Fault> {
    match store.open(partition, name, Mode::Existing, b"0123456789abcdef")? {
        Opened::Ready(mut blob, _) => store.close(&mut blob),
        Opened::Owed(mut owing) => match store.finish(&mut owing) {
            Ok((mut blob, _)) => store.close(&mut blob),
            Err(Fault::Unsettled) => store.give_up(&mut owing),
            Err(fault) => Err(fault),
        },
    }
}
