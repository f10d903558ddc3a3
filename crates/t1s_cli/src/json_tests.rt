use crate::Status;
use crate::offer_rows::ONE_FRAME;
use crate::tests::{EARLY, NO_END, SCRIPT, check_rows, check_texts};
use std::test::Fail;

/// A script without offers.
const NO_OFFERS: &[u8] = b"{\"nodes\":[\
{\"bad\":0,\"clash\":0,\"drop\":0,\"full\":0,\"good\":0,\"jam\":0,\"node\":0,\"sent\":0},\
{\"bad\":0,\"clash\":0,\"drop\":0,\"full\":0,\"good\":0,\"jam\":0,\"node\":1,\"sent\":0},\
{\"bad\":0,\"clash\":0,\"drop\":0,\"full\":0,\"good\":0,\"jam\":0,\"node\":2,\"sent\":0}],\
\"offers\":[],\"settled\":8285}\n";

/// One that ends before every status is OK.
const NEVER_SETTLED: &[u8] = b"{\"nodes\":[\
{\"bad\":0,\"clash\":0,\"drop\":0,\"full\":0,\"good\":0,\"jam\":0,\"node\":0,\"sent\":0},\
{\"bad\":0,\"clash\":0,\"drop\":0,\"full\":0,\"good\":0,\"jam\":0,\"node\":1,\"sent\":0},\
{\"bad\":0,\"clash\":0,\"drop\":0,\"full\":0,\"good\":0,\"jam\":0,\"node\":2,\"sent\":0}],\
\"offers\":[],\"settled\":null}\n";

const ONE_WAIT: &[u8] = b"{\"nodes\":[\
{\"bad\":0,\"clash\":0,\"drop\":0,\"full\":0,\"good\":1,\"jam\":0,\"node\":0,\"sent\":0},\
{\"bad\":0,\"clash\":0,\"drop\":0,\"full\":0,\"good\":0,\"jam\":0,\"node\":1,\"sent\":1},\
{\"bad\":0,\"clash\":0,\"drop\":0,\"full\":0,\"good\":1,\"jam\":0,\"node\":2,\"sent\":0}],\
\"offers\":[142],\"settled\":8285}\n";

/// Offer 2 is still in its ring at the end.
const EACH_VALUE: &[u8] = b"t1s 1\ncount 2\nroom 1\nnode 0 0 0\nnode 1 1 1\nlate 1 8300\n\
fill 8299 1 60 01\nfill 8300 1 60 02\nfill 8301 1 60 03\nfill 8301 0 60 04\nfill 8301 0 60 05\n\
end 9200\n";

const EACH_VALUE_TEXT: &[u8] = b"{\"nodes\":[\
{\"bad\":0,\"clash\":0,\"drop\":0,\"full\":1,\"good\":0,\"jam\":0,\"node\":0,\"sent\":1},\
{\"bad\":0,\"clash\":0,\"drop\":0,\"full\":1,\"good\":1,\"jam\":1,\"node\":1,\"sent\":0}],\
\"offers\":[\"off\",\"none\",\"full\",75,\"full\"],\"settled\":8369}\n";

#[test]
fn json_writes_the_summary_as_an_object(rt: HostRuntime) -> Result<(), Fail> {
    let table: [(&[u8], &[u8]); 4] = [
        (SCRIPT, NO_OFFERS),
        (EARLY, NEVER_SETTLED),
        (ONE_FRAME, ONE_WAIT),
        (EACH_VALUE, EACH_VALUE_TEXT),
    ];
    check_texts(&rt, rt.alloc(), &["json"], Status::Done, &table)?;
    Ok(())
}

#[test]
fn json_answers_as_run_does(rt: HostRuntime) -> Result<(), Fail> {
    let no_end: &[u8] = b"refused 6 NoEnd\n";
    check_rows(
        &rt,
        rt.alloc(),
        &["json"],
        &[
            (NO_END, &[], &[], Status::Refused, no_end),
            (SCRIPT, &[2], &[], Status::ReadFault, b""),
            (SCRIPT, &[], &[1], Status::WriteFault, b""),
            (SCRIPT, &[], &[2], Status::WriteFault, NO_OFFERS),
        ],
    )?;
    Ok(())
}
