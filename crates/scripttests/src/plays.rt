// What the programs print of a script.
use journals::rows::Rows;
use pool::Pool;
use script::rehearsal::{Rehearsal, rehearse};
use script::work::list_work;
use std::alloc::{AllocError, Global};

pub(crate) fn rehearsed(heap: Global, script: &str) -> Result<String, AllocError> {
    let it = rehearse(heap, Pool::new(), Rows::new(), script.as_bytes())?;
    Ok(it.text)
}

pub(crate) fn settled(heap: Global, script: &str) -> Result<String, AllocError> {
    list_work(heap, Pool::new(), Rows::new(), script.as_bytes())
}
