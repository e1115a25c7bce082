//! What help says.

/// What `--help` writes.
pub(crate) const HELP: &[u8] = b"\
Lists the DECnet packets of a capture, each as it comes, with the DAP messages in them.

Usage: dapcap [OPTIONS] [FILE]
       dapcap --lines [--strict] [--between A.N A.N] [FILE]
       dapcap --help | --version

FILE, or standard input where there is none or it is -, is a pcap or pcapng file of Ethernet frames, as 'tcpdump -w'
writes it, or has lines of > or <, for the direction of a packet, a space, and its bytes in hex, at most 4,096.
Each packet is listed as it is read, and under it each message that is whole with it, after 'message'. Where a stream
of segments ends, 'gap' has those that are missing, and 'part' those that belong to no whole message.

Options:
  --bare             without the words after ;
  --segments         without joining segments: only those that hold a whole message are read
  --lines            packets as lines of > or < in place of a listing, each with its frame, its time and its nodes
  --strict           the whole input is checked first, at most 16,777,216 bytes; nothing is listed where some of it is bad
  --between A.N A.N  only packets between these two nodes, as 1.1 1.2
  --help             this text
  --version          the version

Standard error has 'bad line N' for a line that is none of a capture, 'bad KIND at=O' where a file is at fault, and at
the end of a file how many packets were taken, and how many frames passed over. The exit status is 0, or 1 where
something was bad, 2 for a mistake in the words, 3 where a device failed or memory ran out.

Example: dapcap examples/wire.pcap
Live: tcpdump -i eth0 --immediate-mode -U -w - ether proto 0x6003 | dapcap
docs/LISTING.md explains each word of a listing.
";

/// What `--version` writes: the name of the program, and the version of the repository.
pub(crate) const VERSION: &[u8] = b"dapcap 1.1.0\n";
