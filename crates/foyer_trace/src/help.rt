//! What `--help` and `--version` print.

/// The help.
pub const HELP: &str = "\
foyer-trace TRACE [OPTION..]        which policy, and how large a cache, for these requests
foyer-trace --merge FILE.csv..      adds up the parts of a run
foyer-trace --make zipf:..          writes a synthetic trace

Replays the requests of TRACE, a file or - for standard input, over a cache of each policy and size, and prints the miss
ratios. A get that misses inserts its key. ./foyer-trace reads a TRACE that ends in .zst or .gz by zstd or gzip.

The trace
  --format F        keys (a key a line), csv, oracle (libCacheSim's binary records), arc, msr (Microsoft Research's
                    disks) or twitter; else by the file's ending: .keys .txt, .csv, .oracle .oracleGeneral .bin,
                    .arc .lis; standard input has keys
  --name FILE       the name of what standard input has, for its format and the title
  --columns LIST    what the columns of a csv trace are: time,key,size,op,ttl in their order (- for none), or each
                    with its place, by number from 1 or by the header's name: key=2,size=bytes
  --skip-bad        leaves bad records out and counts them, where else the first one ends the run
  --sample R        replays the part R of the keys, such as 0.01, over caches smaller by R; sizes at which these have
                    fewer than 100 records are not shown
  --part I/N        replays the I-th of N such samples; --csv FILE keeps it for --merge, which takes each part once
  --stream          reads the trace once and does not keep it, so that memory is that of the caches

What is run
  --policy LIST     all (default: fifo,lru,lfu,s3fifo,sieve), some of these, or belady (the least possible misses);
                    parameters follow the name: lru:high=1.0 (textbook LRU; default 0.9)
                    lfu:window=1/100,protected=8/10,buckets=2719,hashes=3  s3fifo:small=1/10,ghost=1/1,threshold=1
                    lru-curve draws textbook LRU at all sizes, from one pass over the trace
                    arc, lirs, 2q, lru-k and s3fifo-paper are unproved, to compare with. s3fifo is foyer's: a promoted
                    key keeps its frequency, which the paper clears
  --size LIST       numbers of records such as 10k, or with --weigh size bytes such as 64MiB, or parts of the footprint,
                    which is all keys together (default 0.001,0.003,0.01,0.03,0.1,0.3)
  --shards N        how many shards each cache has (default 1)
  --weigh one|size  what a record weighs (default one)
  --ttl T           how long each record lives, in the trace's time; else as its column says
  --warmup P        serves so many requests, or such a part as 0.2, before it counts
  --jobs N          how many runs are made at a time (default: one a processor)

What is written
  --target R        recommends the least size and the policy with a miss ratio of R or less, such as 0.1
  --windows N       also the miss ratio in each of N parts of the trace, one after another
  --csv FILE        a row for each run
  --svg FILE        the curves
  --html FILE       a page with the table, the curves and the command
  --title TEXT      a title in place of the trace's name
  --quiet           no progress on standard error, and no times below the table

Examples
  foyer-trace examples/traces/sqlite.keys --svg curves.svg
  foyer-trace examples/traces/sqlite.keys --policy all,lru-curve,arc --target 0.2
  foyer-trace requests.csv --columns time=ts,key=url,size=bytes --weigh size --size 16MiB,64MiB,256MiB
  zstd -dc twitter.zst | foyer-trace - --format twitter --stream --size 100k,1M
  foyer-trace big.oracleGeneral --sample 0.01 --policy lru,s3fifo:small=1/20,belady
  foyer-trace --make zipf:ops=1M,keys=100k,skew=0.9,seed=1 >zipf.keys

docs/TRACES.md says what a hit, a size and a time are in each format. The status is 0, 1 if reading, writing or memory
failed or a record is bad, and 2 for bad arguments.
";

/// The version, and what of the program is proved.
pub const VERSION: &str = "\
foyer-trace 0.1.0
./prove foyer_trace proves that it is safe, and that the hits and misses that it counts are those of the caches' model. The
reading of traces, Belady's cache, the curve, the policies to compare with, the tables and the pictures are tested.
";
