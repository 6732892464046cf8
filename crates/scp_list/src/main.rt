// Lists the SuperCard Pro image on standard input, of at most 65,536 bytes.
#![tactic(auto)]

fn main(rt: HostRuntime) {
    // A byte more than is taken tells that the input is too long.
    let mut buffer = [0; scp_listing::INPUT_LIMIT + 1];
    let n = reading::read_full(&mut rt.reader(), &mut buffer);
    if scp_listing::INPUT_LIMIT < n {
        scp_listing::too_long(&rt);
    } else {
        // What refuses the image stands in the listing.
        let _ = scp_listing::list(&rt, &buffer[..n]);
    }
}
