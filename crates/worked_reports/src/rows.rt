//! A report with each row of each table of lines: every call with every reply, every event, and
//! three outcomes.

pub(crate) const EVERY_ROW: &str = "authreport 1
seed 000102030405060708090a0b0c0d0e0f101112131415161718191a1b1c1d1e1f
default a:80
default [::1]:65535
default :0
request 1 GET main http://a/ -
request 2 HEAD p.2_-x http://u:p@h.example:8080/d/e?q%25 proxy:3128
request 3 GET %2D http://a/%2525 x%20y:1
space 1 main server a:80 basic r
space 2 main server a:80 digest -
space 3 main socks h:1 password %2D
space 4 x proxy :0 negotiate -
space 5 main server a:80 digest %FF%00%7F~
terms 1 2 1 MD5 said auth n noopaque
terms 2 5 1 MD5 said auth n opaque -
terms 3 2 2 SHA-256 unsaid missing - opaque opaque userhash
terms 4 2 1 MD5 unsaid auth n noopaque userhash
text 1 - -
text 2 u%20 p:w
text 3 - -
e 0 1 begin = begun
e 77 2 preempt server = ready 1 2 3 4
e 4294967295 1 preempt socks = nothing
e 0 2 select 1 0 = url 1 2 3
e 77 1 select 1 4294967295 = cached 1 1
e 4294967295 2 select 2 1 = default
e 0 1 select 0 0 = follow 7
e 77 2 select 1 1 = lead 1 1
e 4294967295 1 reject 1 2 = removed
e 0 2 reject 1 2 = kept 0
e 77 1 renew 1 2 3 = renewed
e 4294967295 2 renew 1 2 3 = kept 4
e 0 1 answer 1 2 3 = given 1 2 3
e 77 2 answer 1 0 3 = cancelled
e 4294967295 1 lose 1 fault 18446744073709551615 = lost fault 2
e 0 2 lose 1 memory = lost memory
e 77 1 take 1 = gave 2 3
e 4294967295 2 take 1 = cancelled
e 0 1 take 1 = lost memory
e 77 2 take 1 = lost fault 0
e 4294967295 1 note 1 2 = noted
e 0 2 note 1 2 = kept 3
e 77 1 end = ended
t 1 call
t 1 call
t 1 call
t 1 call
t 1 call
t 1 call
t 1 dial 1
t 1 dialfailed 1 18446744073709551615
t 1 draw proxy 1 2 3
t 1 head 1 GET%20/%0D%0A
t 1 head 2 -
t 1 writefailed 1 2
t 1 readfailed 0 0
t 1 reply 1 401 open 5 Basic%20realm=x -
t 1 reply 1 200 close 0
t 1 reply 1 200 close 0 info a=1 info - proxyinfo info
t 1 reply 2 407 close 4294967295
t 1 reply 1 65535 open 1 proxyinfo b
t 1 broken 1 head
t 1 broken 1 headlong
t 1 broken 1 framing
t 1 broken 1 bodylong
t 1 broken 1 cut
t 1 lost 3
t 1 ask 1 given
t 1 ask 1 cancel
t 1 ask 1 failed 3
t 1 ask 1 nomemory
t 1 step server token ab%00
t 1 step proxy token -
t 1 step socks done
t 1 step server refused
t 1 step server nomech
t 1 step server failed 9
t 1 step server nomemory
t 1 call
t 1 call
t 1 call
t 1 call
t 1 call
t 1 call
t 1 outcome refused 401 cancelled 3
t 2 call
t 2 call
t 2 call
t 2 call
t 2 call
t 2 dial 1
t 2 call
t 2 call
t 2 call
t 2 call
t 2 call
t 2 call
t 2 outcome badreply bodylong
t 3 outcome nomemory
end
";
