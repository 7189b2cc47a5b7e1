/// What `--help` prints.
pub(crate) const HELP: &str = "\
bench reads a session script from standard input, makes its calls on real sensors, and prints what they answered.

    bench < SCRIPT             a line for each call, then a summary
    bench --changes < SCRIPT   also what each call changed in the channels, and the signals over the samples
    bench --help               this text

A script has one call a line. `#` begins a comment, and blank lines are passed over. Octets are hexadecimal, \
in either case;
`-` stands for none. All other numbers are decimal.

    sensor int16        the first line, and again for a new blank sensor: int16, int32 or float32
    setup serial=7 channels=1 low=FF9C high=2710 scale=0 capture=1 spread=0 distance=10
    sample 05DC         a value by its octets; or: sample below, sample above, sample nodata
    sample 05DC into 3  into a buffer of 3 octets; 16 where nothing is said
    request 26 3C 01 03 E8 F0
                        an ISDU with its check octet; `into N` sets the response buffer here too
    open                opens a keypad operation, which gives a ticket
    write 7 1 2 03E8    under a ticket with serial number 7: channel 1, setpoint 2, the value
    close 7             closes with a ticket of serial number 7
    restart             a warm restart
    show                no call: prints every channel

A denied call prints its number and its layer, and of a negative response the index and subindex, and the octets:

    request: denied 18 value 60.1: 44 80 31 F5

With --changes each call is followed by the fields of each channel that it changed, and each day, which \
lasts from an accepted
setup to the next, by its timeline: one character for each accepted sample, # where the signal is 1 and _ where it is 0.
A line that cannot be read ends the program with its number and with what was expected there.
";
